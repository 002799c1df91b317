ghost use Rattle.std.specs.Prelude.{Some};
ghost use Rattle.station.specs.Letters.{LetterRead, LetterWritten, letter_text};

use std::fmt;

// The letter of a kind, which stands for it in byte 0 of a block.
#[derive(Clone, Copy, PartialEq, Eq, Debug)]
pub enum Letter {
    F = b'F' as isize,
    T = b'T' as isize,
    B = b'B' as isize,
    S = b'S' as isize,
    C = b'C' as isize,
    P = b'P' as isize,
    Q = b'Q' as isize,
}

// A byte that is no kind's letter.
#[derive(Clone, Copy, PartialEq, Eq, Debug)]
pub struct NoLetter {
    pub byte: u8,
}

impl From<Letter> for u8 {
    ghost from_gives = { LetterWritten };

    fn from(letter: Letter) -> u8 {
        letter as u8
    }
}

impl TryFrom<u8> for Letter {
    type Error = NoLetter;

    ghost try_from_gives = { LetterRead };

    fn try_from(byte: u8) -> Result<Letter, NoLetter> {
        match byte {
            b'F' => Ok(Letter::F),
            b'T' => Ok(Letter::T),
            b'B' => Ok(Letter::B),
            b'S' => Ok(Letter::S),
            b'C' => Ok(Letter::C),
            b'P' => Ok(Letter::P),
            b'Q' => Ok(Letter::Q),
            _ => Err(NoLetter { byte }),
        }
    }
}

impl fmt::Display for Letter {
    ghost output = { λ letter. Some (letter_text letter) };

    fn fmt<W: fmt::Write>(&self, f: &mut fmt::Formatter<W>) -> fmt::Result {
        let letter = char::from(u8::from(*self));
        write!(f, "{letter}")
    }
}
