ghost use Rattle.station.specs.Laws.{Gives};
ghost use Rattle.traces.specs.Traces.{replayed};
ghost use Rattle.std.specs.List.{AllByRecursion};

use station::Station;

// The state behind the last item, from a start. This is the definition that every other figure is held to: it takes the
// items one after another and joins nothing.
pub fn replay<K: Station>(start: K::State, items: &[K::Item]) -> K::State
    ensures { K.Station.rules.is_state start → AllByRecursion K.Station.rules.is_item items.now → Gives K.Station.rules.is_state (replayed K.Station.rules start items.now) result }
{
    let mut state = start;
    for item in items {
        state = K::step(state, *item);
    }
    state
}
