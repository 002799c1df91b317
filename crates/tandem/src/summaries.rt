ghost use Rattle.tandem.specs.Tandem.{tandem_joins, tandem_rules};
ghost use Rattle.std.specs.Prelude.{◌≡◌};
ghost use Rattle.tandem.specs.TandemLaws.{tandem_laws, tandem_steps, tandem_agrees};

use crate::jobs::TandemJob;
use crate::states::TandemState;
use server::capped_sum;
use station::{Station, Summary};

// What a stretch of jobs does to servers that fall free at d and e: the first falls free at d + p and not before q, the
// second at d + r, at e + t, and not before u.
#[derive(Clone, Copy)]
pub struct TandemSummary {
    p: u64,
    q: u64,
    r: u64,
    t: u64,
    u: u64,
}

impl TandemSummary {
    // p, q, r, t and u.
    pub fn numbers(self) -> (u64, u64, u64, u64, u64)
        ensures { result ≡ (self.p, self.q, self.r, self.t, self.u) }
    {
        (self.p, self.q, self.r, self.t, self.u)
    }
}

impl Summary for TandemSummary {
    ghost joins = { tandem_joins };

    ghost laws = { tandem_laws };

    fn empty() -> TandemSummary {
        TandemSummary {
            p: 0,
            q: 0,
            r: 0,
            t: 0,
            u: 0,
        }
    }

    fn join(self, later: TandemSummary) -> TandemSummary {
        TandemSummary {
            p: capped_sum(self.p, later.p),
            q: capped_sum(self.q, later.p).max(later.q),
            r: capped_sum(self.p, later.r).max(capped_sum(self.r, later.t)),
            t: capped_sum(self.t, later.t),
            u: capped_sum(self.q, later.r)
                .max(capped_sum(self.u, later.t))
                .max(later.u),
        }
    }
}

impl Station for TandemSummary {
    type Item = TandemJob;

    type State = TandemState;

    ghost rules = { tandem_rules };

    ghost steps = { tandem_steps };

    ghost agreement = { tandem_agrees };

    fn step(state: TandemState, item: TandemJob) -> TandemState {
        let first = capped_sum(item.arrival.max(state.first), u64::from(item.first));
        TandemState {
            first,
            second: capped_sum(first.max(state.second), u64::from(item.second)),
        }
    }

    fn of_item(item: TandemJob) -> TandemSummary {
        let first = u64::from(item.first);
        let second = u64::from(item.second);
        let q = capped_sum(item.arrival, first);
        TandemSummary {
            p: first,
            q,
            r: capped_sum(first, second),
            t: second,
            u: capped_sum(q, second),
        }
    }

    fn effect(self, state: TandemState) -> TandemState {
        TandemState {
            first: capped_sum(state.first, self.p).max(self.q),
            second: capped_sum(state.first, self.r)
                .max(capped_sum(state.second, self.t))
                .max(self.u),
        }
    }
}
