ghost use Rattle.std.specs.Prelude.{◌≡◌, ℕ, List, ◌∷◌, IfOk, IfSome, Some, string_bytes};
ghost use Rattle.recordings.specs.Hand.{at_hand, number_at_hand, unread};
ghost use Rattle.recordings.specs.Input.{blocks_of};
ghost use Rattle.passes.specs.Reports.{KindReport, OnAll, Report, ReportOn, Told};

use crate::states::states_along;
use crate::texts::{empty_text, error_text, pass_text};
use buffer::BufferSummary;
use counts::CountSummary;
use lock::LockMap;
use pairs::{CountedTandem, LockedBuffer};
use recordings::{Blocks, load_all, open_pass};
use run::Run;
use server::ServerSummary;
use station::{Letter, Recorded};
use std::alloc::Global;
use std::fmt::Display;
use std::io::Read;
use tandem::TandemSummary;

// A run over this many cells has room for 512 entries.
const CELLS: usize = 1_024;

// The report on a pass of one kind, from its default state. Its first data block is at hand.
fn report_kind<K: Recorded, R: Read + Drop>(
    heap: Global,
    mut blocks: Blocks<R>,
) -> anyhow::Result<String>
where
    K::State: Default + Display,
    ensures { (start : K.State) (text_of : K.State → List ℕ) → ((d : K.State) → K.State.Default.is_default d → d ≡ start) → ((d : K.State) → K.State.Display.output d ≡ Some (text_of d)) → K.Station.rules.is_state start → IfOk result (λ text. Told (unread R.remaining blocks) (λ rest. Report K.Summary.joins K.Station.rules K.Recorded.records start text_of (number_at_hand blocks) (at_hand blocks ∷ rest)) (string_bytes text)) }
{
    let mut cells = vec![in heap; K::empty(); CELLS]?;
    let mut run = Run::open(&mut cells, 0);
    let first = blocks.index();
    match load_all(&mut blocks, first, &mut run) {
        Ok(()) => {
            let states = states_along(heap, &run, K::State::default())?;
            Ok(pass_text(heap, K::letter(), &states)?)
        }
        Err(error) => error_text(heap, error),
    }
}

// The report on a pass of the kind with a letter, from zeros and no count seen. An arm for each kind, since each is a type
// of its own.
fn report_letter<R: Read + Drop>(
    heap: Global,
    letter: Letter,
    blocks: Blocks<R>,
) -> anyhow::Result<String>
    ensures { IfOk result (λ text. Told (unread R.remaining blocks) (λ rest. KindReport letter (number_at_hand blocks) (at_hand blocks ∷ rest)) (string_bytes text)) }
{
    match letter {
        Letter::F => report_kind::<ServerSummary, R>(heap, blocks),
        Letter::T => report_kind::<TandemSummary, R>(heap, blocks),
        Letter::B => report_kind::<BufferSummary, R>(heap, blocks),
        Letter::S => report_kind::<LockMap, R>(heap, blocks),
        Letter::C => report_kind::<CountSummary, R>(heap, blocks),
        Letter::P => report_kind::<CountedTandem, R>(heap, blocks),
        Letter::Q => report_kind::<LockedBuffer, R>(heap, blocks),
    }
}

// The report on the pass that an input holds: one line for each entry, or the fault of the first block that is refused.
pub fn report<R: Read + Drop>(heap: Global, input: R) -> anyhow::Result<String>
    ensures told { IfOk result (λ text. (blocks : List (List ℕ)) × ReportOn blocks (string_bytes text)) }
    ensures known { IfOk result (λ text. IfSome (R.remaining input) (λ bytes. OnAll ReportOn (blocks_of bytes) (string_bytes text))) }
{
    let mut blocks = Blocks::new(input);
    match open_pass(&mut blocks) {
        Ok(Some(opening)) => report_letter(heap, opening.letter, blocks),
        Ok(None) => Ok(empty_text(heap)?),
        Err(error) => error_text(heap, error),
    }
}
