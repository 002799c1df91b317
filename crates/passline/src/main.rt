//! Reads the blocks of a recorded pass from standard input and prints the state behind each of its entries.
#![tactic(auto)]

use std::io::BufReader;

fn run(rt: &HostRuntime) -> anyhow::Result<()> {
    let report = passes::report(rt.alloc(), BufReader::new(rt.alloc(), rt.stdin())?)?;
    rt.print(report)?;
    Ok(())
}

fn main(rt: HostRuntime) -> anyhow::Result<()> {
    run(&rt)
}
