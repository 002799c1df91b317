ghost use Rattle.std.specs.Prelude.{◌≡◌};
ghost use Rattle.block.specs.Reading.{read_of};
ghost use Rattle.loading.specs.Loading.{block_records, checked, record_items, seen};

use crate::faults::{LoadCause, LoadFault, Lower, RecordsFault, beside};
use block::Block;
use station::{RECORD_SIZE, Recorded};

// Whether all records are items of a kind, from the first on; the first that is none is a fault.
fn check_records<K: Recorded>(records: &[u8]) -> Result<(), RecordsFault>
    ensures { result ≡ checked (record_items K.Recorded.records records.now) }
{
    let (chunks, _) = records.as_chunks::<RECORD_SIZE>();
    for (index, record) in chunks.iter().enumerate() {
        K::read(*record).map_err(|fault| RecordsFault { index, fault })?;
    }
    Ok(())
}

// What a block brings to a run of a kind that has some length: the bytes of its records, all of them items, or none for a
// note. It refuses, in this order: no block, a block of another kind, a record that is no item.
pub fn read_records<K: Recorded>(bytes: &[u8], length: usize) -> Result<&[u8], LoadFault>
    ensures { seen result ≡ block_records K.Recorded.records «length» (read_of bytes.now) }
{
    match beside(block::read_block(bytes), length)? {
        Block::Note(_) => Ok(&[]),
        Block::Data { letter, records } => {
            if letter != K::letter() {
                return Err(LoadFault {
                    cause: LoadCause::OtherKind,
                    length,
                });
            }
            beside(check_records::<K>(records), length)?;
            Ok(records)
        }
    }
}
