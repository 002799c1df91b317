ghost use Rattle.station.specs.Laws.{Rules, StationLaws, Agreement, Gives};

use crate::summaries::Summary;

// A kind of station, on the type of its summaries. Its meaning is the step: the summary of an item and the effect of a
// summary on a state are right where the laws tie them to it.
pub trait Station: Summary {
    type Item: Copy;

    type State: Copy;

    // Not one with `joins`, since the tree of joins has no more than those.
    ghost rules: { Rules Self Self.Item Self.State };

    // The state behind one item.
    fn step(state: Self::State, item: Self::Item) -> Self::State
        ensures { rules.is_state state → rules.is_item item → Gives rules.is_state (rules.stepped state item) result };

    // The summary of one item.
    fn of_item(item: Self::Item) -> Self
        ensures { rules.is_item item → Gives Self.Summary.joins.is_summary (rules.of_item item) result };

    // The state behind all that this summary stands for.
    fn effect(self, state: Self::State) -> Self::State
        ensures { Self.Summary.joins.is_summary self → rules.is_state state → Gives rules.is_state (rules.effect self state) result };

    // Promises, for all summaries and states, that the effect of a join is the earlier effect followed by the later, and
    // that the empty summary has none.
    fn agrees()
        ensures { Agreement Self.Summary.joins rules }
    {}

    ghost steps: { StationLaws Self.Summary.joins rules };

    ghost agreement: { Agreement Self.Summary.joins rules };
}
