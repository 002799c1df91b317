ghost use Rattle.std.specs.Prelude.{◌≡◌, ℕ, ◌+◌, List, [], IfErr, IfSome};
ghost use Rattle.recordings.specs.Hand.{at_hand, read_count, unread};
ghost use Rattle.recordings.specs.Input.{blocks_of};
ghost use Rattle.recordings.specs.Faults.{IfFault};
ghost use Rattle.recordings.specs.Loading.{pass_answer, LoadedAll, LoadedFrom};
ghost use Rattle.run.specs.Calls.{Load};
ghost use Rattle.run.specs.Serving.{ServesBy};
ghost use Rattle.run.specs.Standing.{Met, terms_of};

use crate::blocks::{Blocks, endless};
use crate::faults::{PassError, PassFault};
use run::Run;
use station::Recorded;
use std::io::Read;

// Loads the block at hand into a run, or says of which number the block is that is refused.
fn load_at_hand<K: Recorded, R: Read>(
    blocks: &Blocks<R>,
    index: u64,
    run: &mut Run<'_, K>,
) -> Result<usize, PassFault>
    ensures serves { ServesBy K.Summary.joins K.Station.rules K.Recorded.records (Load (at_hand blocks.now)) run.old run.new (pass_answer result) }
    ensures numbered { IfErr result (λ at. at.index ≡ «index») }
{
    run.load(blocks.block())
        .map_err(|fault| PassFault { index, fault })
}

// Loads the block at hand, which has a number, and all behind it into a new run, up to the first that is refused.
pub fn load_all<K: Recorded, R: Read>(
    blocks: &mut Blocks<R>,
    first: u64,
    run: &mut Run<'_, K>,
) -> Result<(), PassError>
    ensures loaded { (given : List K) (number : ℕ) → Met K.Summary.joins K.Station.rules K.Recorded.records given number [] run.old → LoadedFrom K.Summary.joins K.Station.rules given (terms_of given number K.Recorded.records) first (read_count blocks.old) (read_count blocks.new) (at_hand blocks.old) run.new result }
    ensures numbered { IfFault result (λ at. read_count blocks.old + at.index ≡ read_count blocks.new + first) }
    ensures known { (given : List K) (number : ℕ) → Met K.Summary.joins K.Station.rules K.Recorded.records given number [] run.old → IfSome (unread R.remaining blocks.old) (λ bytes. LoadedAll K.Summary.joins K.Station.rules given (terms_of given number K.Recorded.records) first (at_hand blocks.old) (blocks_of bytes) run.new result) }
{
    for index in first..u64::MAX {
        load_at_hand(blocks, index, run)?;
        if !blocks.advance()? {
            return Ok(());
        }
    }
    Err(PassError::Input(endless()))
}
