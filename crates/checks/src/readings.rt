ghost use Rattle.checks.specs.Readings.{peak_joins, peak_rules};
ghost use Rattle.std.proofs.Common.{rules};

use station::{Station, Summary};

// A reading of some meter.
#[derive(Clone, Copy, PartialEq, Eq, Debug)]
pub struct Reading {
    pub value: u32,
}

// The highest reading so far.
#[derive(Clone, Copy, PartialEq, Eq, Debug)]
pub struct Peak {
    pub top: u32,
}

// The highest reading of a stretch, 0 where there is none.
#[derive(Clone, Copy, PartialEq, Eq, Debug)]
pub struct PeakSummary {
    pub top: u32,
}

impl Summary for PeakSummary {
    ghost joins = { peak_joins };

    ghost laws = { Prim.search rules };

    fn empty() -> PeakSummary {
        PeakSummary { top: 0 }
    }

    fn join(self, later: PeakSummary) -> PeakSummary {
        PeakSummary {
            top: self.top.max(later.top),
        }
    }
}

impl Station for PeakSummary {
    type Item = Reading;

    type State = Peak;

    ghost rules = { peak_rules };

    ghost steps = { Prim.search rules };

    ghost agreement = { Prim.search rules };

    fn step(state: Peak, item: Reading) -> Peak {
        Peak {
            top: state.top.max(item.value),
        }
    }

    fn of_item(item: Reading) -> PeakSummary {
        PeakSummary { top: item.value }
    }

    fn effect(self, state: Peak) -> Peak {
        Peak {
            top: state.top.max(self.top),
        }
    }
}
