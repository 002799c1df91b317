ghost use Rattle.std.specs.Prelude.{◌≡◌, IfOk};
ghost use Rattle.lock.specs.Events.{made_event};
ghost use Rattle.lock.specs.Maps.{lock_rules};

use station::Refusal;

// What the lock hears of: G a good marker, B a bad one, L the carrier lost, S stow, T track.
// A letter and no enum, since the rules name events by their letters.
#[derive(Clone, Copy, PartialEq, Eq, Debug)]
pub struct LockEvent {
    letter: char,
}

impl LockEvent {
    // Refuses every other letter.
    pub fn new(letter: char) -> Result<LockEvent, Refusal>
        ensures is { result ≡ made_event letter }
        ensures counts { IfOk result (λ e. lock_rules.is_item e) }
    {
        match letter {
            'G' | 'B' | 'L' | 'S' | 'T' => Ok(LockEvent { letter }),
            _ => Err(Refusal::ItemLimit),
        }
    }

    pub fn letter(self) -> char
        ensures { result ≡ self.letter }
    {
        self.letter
    }
}
