ghost use Rattle.std.specs.Prelude.{◌≡◌, ◌<◌, ◌≤◌, length, take, IfOk};
ghost use Rattle.std.specs.IoError.{error_kind};
ghost use Rattle.std.specs.Io.{ReadsAtMost};
ghost use Rattle.std.specs.Io.KnownBytes.{Consumes, IsAtEnd, ReadConsumes};
ghost use Rattle.recordings.specs.Input.{IsUninterrupted};

use std::io;
use std::io::{ErrorKind, Read};

// So often a read is made that a signal interrupts each time; an input that is interrupted without end is given up.
const ATTEMPTS: u32 = 65_536;

// Nothing says that an input ends, so whoever reads one counts, and gives up with this.
pub(crate) fn endless() -> io::Error
    ensures { error_kind result ≡ ErrorKind.TimedOut }
{
    io::Error::from(ErrorKind::TimedOut)
}

// One read, and another where a signal interrupts it.
fn read_uninterrupted<R: Read>(input: &mut R, bytes: &mut [u8]) -> io::Result<usize>
    ensures bound { ReadsAtMost result bytes.new }
    ensures bytes { ReadConsumes (R.remaining input.old) (R.remaining input.new) result bytes.new }
    ensures retried { IsUninterrupted result }
{
    for _ in 0..ATTEMPTS {
        match input.read(bytes) {
            Ok(n) => return Ok(n),
            Err(error) => {
                if error.kind() != ErrorKind::Interrupted {
                    return Err(error);
                }
            }
        }
    }
    Err(endless())
}

// Fills bytes from the front as far as the input goes, since a read may give less than it is asked for. Answers how far.
pub(crate) fn fill<R: Read>(input: &mut R, bytes: &mut [u8]) -> io::Result<usize>
    ensures within { IfOk result (λ n. n ≤ length bytes.old) }
    ensures bytes { IfOk result (λ n. Consumes (R.remaining input.old) (R.remaining input.new) (take n bytes.new)) }
    ensures end { IfOk result (λ n. n < length bytes.old → IsAtEnd (R.remaining input.new)) }
    ensures retried { IsUninterrupted result }
{
    let mut filled = 0;
    // A loop over reads: what std promises of `read_to_end` behind a `take` leaves open what the input has after it.
    while filled < bytes.len() {
        let n = read_uninterrupted(input, &mut bytes[filled..])?;
        if n == 0 {
            break;
        }
        filled += n;
    }
    Ok(filled)
}
