ghost use Rattle.std.specs.Prelude.{◌≡◌, ◌<◌, ◌≤◌, length};
ghost use Rattle.traces.specs.Spreading.{Spreads, spread_answer};

use station::{Refusal, Station};

// Writes the effect of each prefix on a start into the place of its number.
fn write_effects<K: Station>(fronts: &[K], start: K::State, memory: &mut [K::State])
    requires { length fronts.now ≤ length memory.old }
    ensures { Spreads K.Summary.joins K.Station.rules start fronts.now memory.old memory.new }
{
    // By number: behind `iter_mut().zip` the library does not say what the memory ends as.
    for (k, front) in fronts.iter().enumerate() {
        memory[k] = front.effect(start);
    }
}

// Writes the effect of prefix k on a start into place k of the given memory; later places stay. Where the prefixes are
// those of a trace's summaries, these are the states that the replay of the trace goes through.
pub fn spread<K: Station>(
    fronts: &[K],
    start: K::State,
    memory: &mut [K::State],
) -> Result<(), Refusal>
    ensures answer { result ≡ spread_answer (length fronts.now) (length memory.old) }
    ensures refused { length memory.old < length fronts.now → memory.new ≡ memory.old }
    ensures written { length fronts.now ≤ length memory.old → Spreads K.Summary.joins K.Station.rules start fronts.now memory.old memory.new }
{
    if memory.len() < fronts.len() {
        return Err(Refusal::ShortMemory);
    }
    write_effects::<K>(fronts, start, memory);
    Ok(())
}
