ghost use Rattle.traces.specs.Traces.{EntryCounts, Summarizes};
ghost use Rattle.std.specs.List.{AllByRecursion};

use crate::entries::{Entry, entry_summary};
use station::Station;

// The summary of a trace. However the trace is cut into pieces and the pieces' summaries are bracketed, their join is
// this one, and its effect on every state is the replay of the trace from there.
pub fn summarize<K: Station>(trace: &[Entry<K::Item>]) -> K
    ensures { AllByRecursion (EntryCounts K.Station.rules) trace.now → Summarizes K.Summary.joins K.Station.rules trace.now result }
{
    let mut sum = K::empty();
    for entry in trace {
        sum = sum.join(entry_summary::<K>(*entry));
    }
    sum
}
