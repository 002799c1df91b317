ghost use Rattle.std.specs.Prelude.{◌≡◌, ℕ, List, ◌++◌, IfOk, Some, string_bytes, OnOk};
ghost use Rattle.station.specs.Letters.{letter_text};
ghost use Rattle.passes.specs.Texts.{head_text, line_text, pass_text, empty_text, break_text};
ghost use Rattle.recordings.specs.declared.faults.PassFault.{PassFault};
ghost use Rattle.recordings.specs.declared.faults.PassError.TheVariants.{Fault};

use recordings::{PassError, PassFault};
use station::Letter;
use std::alloc::{AllocError, Global};
use std::fmt::Display;

fn head_text(heap: Global, letter: Letter, count: usize) -> Result<String, AllocError>
    ensures { IfOk result (λ text. string_bytes text ≡ head_text (letter_text letter) count) }
{
    format!(in heap; "PASS {letter} {count}\n")
}

fn push_line<D: Display>(text: &mut String, position: usize, state: &D) -> Result<(), AllocError>
    ensures { (words : List ℕ) → D.Display.output state.now ≡ Some words → OnOk result (string_bytes text.new ≡ string_bytes text.old ++ line_text position words) }
{
    write!(text, "{position} {state}\n")
}

// The text of a pass that was read whole: its letter and length, and the state behind each entry.
pub fn pass_text<D: Display>(
    heap: Global,
    letter: Letter,
    states: &[D],
) -> Result<String, AllocError>
    ensures { (text_of : D → List ℕ) → ((d : D) → D.Display.output d ≡ Some (text_of d)) → IfOk result (λ text. string_bytes text ≡ pass_text text_of (letter_text letter) states.now) }
{
    let mut text = head_text(heap, letter, states.len())?;
    for (position, state) in states.iter().enumerate() {
        push_line(&mut text, position, state)?;
    }
    text.push_str("END\n")?;
    Ok(text)
}

// The text of an input with no data block.
pub fn empty_text(heap: Global) -> Result<String, AllocError>
    ensures { IfOk result (λ text. string_bytes text ≡ empty_text) }
{
    format!(in heap; "PASS - 0\nEND\n")
}

// The text of a pass that breaks off at a block. An input that fails has none, and its error is passed on.
pub fn error_text(heap: Global, error: PassError) -> anyhow::Result<String>
    ensures { IfOk result (λ text. (at : PassFault) × ((error ≡ Fault at) × (string_bytes text ≡ break_text at))) }
{
    match error {
        PassError::Fault(PassFault { index, fault }) => {
            Ok(format!(in heap; "FAULT {index} {fault}\n")?)
        }
        PassError::Input(error) => Err(anyhow::Error::from(error)),
    }
}
