ghost use Rattle.station.specs.Laws.{Gives};
ghost use Rattle.traces.specs.Traces.{EntryCounts, summary_of};

use station::Station;

// An entry of a trace: an item, or none where it was withdrawn. A withdrawn one leaves every state as it is.
pub type Entry<I> = Option<I>;

// The summary of one entry.
pub fn entry_summary<K: Station>(entry: Entry<K::Item>) -> K
    ensures { EntryCounts K.Station.rules entry → Gives K.Summary.joins.is_summary (summary_of K.Summary.joins K.Station.rules entry) result }
{
    match entry {
        Some(item) => K::of_item(item),
        None => K::empty(),
    }
}
