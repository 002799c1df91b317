//! Walks a scheduler's way through a run of frame counts beside two servers in tandem, and prints the figures of each step
//! beside the plain replay of the same entries.
#![tactic(auto)]

mod pass;
mod rehearsal;

use crate::pass::planned;
use crate::rehearsal::Rehearsal;
use pairs::CountedTandem;
use station::Summary;

fn main(rt: HostRuntime) -> anyhow::Result<()> {
    let mut cells = [CountedTandem::empty(); 16];
    Rehearsal::new(&rt, &mut cells, planned()?).walk()
}
