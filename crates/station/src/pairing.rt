ghost use Rattle.station.specs.Pairs.{pair_joins, pair_rules, pair_text};
ghost use Rattle.std.proofs.Common.{rules};

use crate::kinds::Station;
use crate::summaries::Summary;
use std::fmt;

// Two things side by side: the items, the states or the summaries of two kinds. A pair has no limits but those of its
// parts, so its fields are open.
#[derive(Clone, Copy, PartialEq, Eq, Debug, Default)]
pub struct Pair<A, B> {
    pub first: A,
    pub second: B,
}

impl<A: Summary, B: Summary> Summary for Pair<A, B> {
    ghost joins = { pair_joins A.Summary.joins B.Summary.joins };

    ghost laws = { Prim.search rules };

    fn empty() -> Pair<A, B> {
        Pair {
            first: A::empty(),
            second: B::empty(),
        }
    }

    fn join(self, later: Pair<A, B>) -> Pair<A, B> {
        Pair {
            first: self.first.join(later.first),
            second: self.second.join(later.second),
        }
    }
}

impl<A: Station, B: Station> Station for Pair<A, B> {
    type Item = Pair<A::Item, B::Item>;

    type State = Pair<A::State, B::State>;

    ghost rules = { pair_rules A.Station.rules B.Station.rules };

    ghost steps = { Prim.search rules };

    ghost agreement = { Prim.search rules };

    fn step(
        state: Pair<A::State, B::State>,
        item: Pair<A::Item, B::Item>,
    ) -> Pair<A::State, B::State> {
        Pair {
            first: A::step(state.first, item.first),
            second: B::step(state.second, item.second),
        }
    }

    fn of_item(item: Pair<A::Item, B::Item>) -> Pair<A, B> {
        Pair {
            first: A::of_item(item.first),
            second: B::of_item(item.second),
        }
    }

    fn effect(self, state: Pair<A::State, B::State>) -> Pair<A::State, B::State> {
        Pair {
            first: self.first.effect(state.first),
            second: self.second.effect(state.second),
        }
    }
}

impl<A: fmt::Display, B: fmt::Display> fmt::Display for Pair<A, B> {
    ghost output = { λ p. pair_text (A.Display.output p.first) (B.Display.output p.second) };

    fn fmt<W: fmt::Write>(&self, f: &mut fmt::Formatter<W>) -> fmt::Result {
        let first = &self.first;
        let second = &self.second;
        write!(f, "{first} {second}")
    }
}
