ghost use Rattle.std.specs.Prelude.{◌≡◌};
ghost use Rattle.block.specs.Layout.{record_at};

use station::RECORD_SIZE;

// The record with a number, from 0 on, among the bytes of some records.
#[tactic(auto, using(crate::proofs::Chunks::record_got))]
pub fn record_at(records: &[u8], index: usize) -> Option<[u8; RECORD_SIZE]>
    ensures { result ≡ record_at records.now index }
{
    records.as_chunks::<RECORD_SIZE>().0.get(index).copied()
}
