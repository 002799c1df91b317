ghost use Rattle.std.specs.Prelude.{◌≡◌, ◌+◌, ◌/◌, ◌≤◌, length};
ghost use Rattle.run.specs.Calls.{Load, load_answer};
ghost use Rattle.run.specs.Records.{Appends, Lays};
ghost use Rattle.run.specs.Serving.{Keeps, ServesBy};

use crate::run::Run;
use loading::{LoadCause, LoadFault, read_records};
use station::{RECORD_SIZE, Recorded, Refusal};
use tree::{capacity_of, rejoin_leaves};

// Writes the summaries of some records, all of them items, into the cells from a place on.
fn lay_records<K: Recorded>(cells: &mut [K], place: usize, records: &[u8])
    requires { place + length records.now / 16 ≤ length cells.old }
    ensures { Lays K.Station.rules K.Recorded.records place records.now cells.old cells.new }
{
    let (chunks, _) = records.as_chunks::<RECORD_SIZE>();
    // By number: behind `iter_mut().zip` the library does not say what the cells end as.
    for (index, record) in chunks.iter().enumerate() {
        // No error to pass up: all of them are items.
        let Ok(item) = K::read(*record) else {
            continue;
        };
        cells[place + index] = K::of_item(item);
    }
}

// Writes the summaries of some records, all of them items, as leaves from a place on, and joins anew the cells above them,
// each once. Refused where there is no room for all.
fn append_records<K: Recorded>(cells: &mut [K], first: usize, records: &[u8]) -> Result<(), Refusal>
    ensures { Appends K.Summary.joins K.Station.rules K.Recorded.records first records.now cells.old cells.new result }
{
    let places = capacity_of(cells.len());
    let count = records.len() / RECORD_SIZE;
    if first > places || count > places - first {
        return Err(Refusal::NoRoom);
    }
    lay_records::<K>(cells, places + first, records);
    rejoin_leaves(cells, first..first + count)
}

impl<'a, K: Recorded> Run<'a, K> {
    // Appends the records of a block, all or none, and answers their number, 0 for a note.
    pub fn load(&mut self, bytes: &[u8]) -> Result<usize, LoadFault>
        ensures serves { ServesBy K.Summary.joins K.Station.rules K.Recorded.records (Load bytes.now) self.old self.new (load_answer result) }
        ensures keeps { Keeps self.old self.new result }
    {
        let length = self.length;
        self.ensure_settled().map_err(|_| LoadFault {
            cause: LoadCause::TrialOpen,
            length,
        })?;
        let records = read_records::<K>(bytes, length)?;
        append_records::<K>(self.cells, length, records).map_err(|_| LoadFault {
            cause: LoadCause::NoRoom,
            length,
        })?;
        let count = records.len() / RECORD_SIZE;
        self.length = length + count;
        Ok(count)
    }
}
