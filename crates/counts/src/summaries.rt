ghost use Rattle.std.specs.Prelude.{◌≡◌, ◌<◌};
ghost use Rattle.counts.specs.Counts.{count_joins, count_rules, after, span_numbers};
ghost use Rattle.counts.specs.CountLaws.{count_laws, count_steps, count_agrees};

use crate::frames::FrameCount;
use crate::states::CountState;
use crate::tallies::{Tallies, step_between};
use station::{Station, Summary};

// The first and the last count of a stretch of frames, and what it tallies inside.
#[derive(Clone, Copy)]
struct Span {
    first: u16,
    last: u16,
    tallies: Tallies,
}

// A stretch with no frame, or a span.
#[derive(Clone, Copy)]
pub struct CountSummary {
    span: Option<Span>,
}

impl CountSummary {
    // First and last count, missing, repeats and late; nothing for the empty summary.
    pub fn numbers(self) -> Option<(u16, u16, u32, u32, u32)>
        ensures { result ≡ span_numbers self.span }
    {
        self.span.map(|span| {
            let Tallies {
                missing,
                repeats,
                late,
            } = span.tallies;
            (span.first, span.last, missing, repeats, late)
        })
    }
}

impl CountState {
    // The tallies once a frame with this count has come.
    fn tallies_after(self, count: u16) -> Tallies
        ensures { count_rules.is_state self → result ≡ after self.last self.tallies count }
    {
        match self.last {
            None => self.tallies,
            Some(last) => self.tallies.and(step_between(last, count)),
        }
    }
}

impl Summary for CountSummary {
    ghost joins = { count_joins };

    ghost laws = { count_laws };

    fn empty() -> CountSummary {
        CountSummary { span: None }
    }

    fn join(self, later: CountSummary) -> CountSummary {
        match (self.span, later.span) {
            (None, _) => later,
            (_, None) => self,
            (Some(front), Some(back)) => {
                let between = step_between(front.last, back.first);
                CountSummary {
                    span: Some(Span {
                        first: front.first,
                        last: back.last,
                        tallies: front.tallies.and(between).and(back.tallies),
                    }),
                }
            }
        }
    }
}

impl Station for CountSummary {
    type Item = FrameCount;

    type State = CountState;

    ghost rules = { count_rules };

    ghost steps = { count_steps };

    ghost agreement = { count_agrees };

    fn step(state: CountState, item: FrameCount) -> CountState {
        CountState {
            last: Some(item.count),
            tallies: state.tallies_after(item.count),
        }
    }

    fn of_item(item: FrameCount) -> CountSummary {
        CountSummary {
            span: Some(Span {
                first: item.count,
                last: item.count,
                tallies: Tallies::default(),
            }),
        }
    }

    fn effect(self, state: CountState) -> CountState {
        match self.span {
            None => state,
            Some(span) => CountState {
                last: Some(span.last),
                tallies: state.tallies_after(span.first).and(span.tallies),
            },
        }
    }
}
