ghost use Rattle.checks.specs.Visits.{visit_joins, visit_rules};
ghost use Rattle.std.proofs.Common.{rules};

use station::{Station, Summary};

// A visit of so many people.
#[derive(Clone, Copy, PartialEq, Eq, Debug)]
pub struct Visit {
    pub people: u16,
}

// How many people came so far, modulo 2^32.
#[derive(Clone, Copy, PartialEq, Eq, Debug)]
pub struct Visits {
    pub people: u32,
}

// How many came in a stretch, modulo 2^32.
#[derive(Clone, Copy, PartialEq, Eq, Debug)]
pub struct VisitSummary {
    pub people: u32,
}

impl Summary for VisitSummary {
    ghost joins = { visit_joins };

    ghost laws = { Prim.search rules };

    fn empty() -> VisitSummary {
        VisitSummary { people: 0 }
    }

    fn join(self, later: VisitSummary) -> VisitSummary {
        VisitSummary {
            people: self.people.wrapping_add(later.people),
        }
    }
}

impl Station for VisitSummary {
    type Item = Visit;

    type State = Visits;

    ghost rules = { visit_rules };

    ghost steps = { Prim.search rules };

    ghost agreement = { Prim.search rules };

    fn step(state: Visits, item: Visit) -> Visits {
        Visits {
            people: state.people.wrapping_add(u32::from(item.people)),
        }
    }

    fn of_item(item: Visit) -> VisitSummary {
        VisitSummary {
            people: u32::from(item.people),
        }
    }

    fn effect(self, state: Visits) -> Visits {
        Visits {
            people: state.people.wrapping_add(self.people),
        }
    }
}
