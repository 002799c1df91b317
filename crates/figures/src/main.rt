//! Prints the worked figures, and one trace of each kind both ways, through the library.
#![tactic(auto)]

mod blocks;
mod both_ways;
mod by_hand;

use worked::figures_follow_from_rules;

fn print_worked(rt: &HostRuntime) -> anyhow::Result<()> {
    figures_follow_from_rules();
    println!(rt; "Worked figures")?;
    by_hand::server(rt)?;
    by_hand::tandem(rt)?;
    by_hand::buffered(rt)?;
    by_hand::locked(rt)?;
    by_hand::counted(rt)
}

fn print_both_ways(rt: &HostRuntime) -> anyhow::Result<()> {
    println!(rt; "\nBoth ways: a trace replayed, and the effect of its pieces' summaries joined")?;
    both_ways::server(rt)?;
    both_ways::tandem(rt)?;
    both_ways::buffered(rt)?;
    both_ways::locked(rt)?;
    both_ways::counted(rt)?;
    both_ways::counted_tandem(rt)?;
    both_ways::locked_buffer(rt)
}

fn run(rt: &HostRuntime) -> anyhow::Result<()> {
    print_worked(rt)?;
    print_both_ways(rt)?;
    println!(rt; "\nA block of frame counts")?;
    blocks::counts(rt)
}

fn main(rt: HostRuntime) -> anyhow::Result<()> {
    run(&rt)
}
