ghost use Rattle.std.specs.Prelude.{◌≡◌, IfOk};
ghost use Rattle.run.specs.Serving.{Tells};
ghost use Rattle.traces.specs.Traces.{states_along};

use run::Run;
use station::Station;
use std::alloc::Global;

// The state behind each entry of a run, from a start.
pub fn states_along<K: Station>(
    heap: Global,
    run: &Run<'_, K>,
    start: K::State,
) -> anyhow::Result<Vec<K::State>>
    ensures { Tells K.Summary.joins K.Station.rules run.now (λ t. (K.Station.rules.is_state start → IfOk result (λ states. states.items ≡ states_along K.Station.rules start t.entries))) }
{
    let mut states = Vec::new(heap);
    for count in 1..=run.length() {
        states.push(run.state(count, start)?)?;
    }
    Ok(states)
}
