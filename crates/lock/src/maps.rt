ghost use Rattle.std.specs.Prelude.{◌≡◌, ◌≤◌};
ghost use Rattle.lock.specs.Events.{next_state};
ghost use Rattle.lock.specs.States.{last_state};
ghost use Rattle.lock.specs.Maps.{image, packed, through, letter_map, lock_joins, lock_rules};
ghost use Rattle.lock.specs.MapLaws.{map_laws};
ghost use Rattle.lock.specs.LockLaws.{lock_steps, lock_agrees};

use crate::events::LockEvent;
use crate::states::LockState;
use station::{Station, Summary};

// Where a stretch of events leads from each of the eight states: an octal digit for each state, that of state 0 lowest.
#[derive(Clone, Copy)]
pub struct LockMap {
    bits: u32,
}

// Every state stays.
const IDENTITY: u32 = 0o76543210;

impl LockMap {
    pub fn bits(self) -> u32
        ensures { result ≡ self.bits }
    {
        self.bits
    }
}

// Any other letter, which no event has, leaves every state as it is.
fn map_of(letter: char) -> u32
    ensures { result ≡ letter_map letter }
{
    match letter {
        'G' => 0o73333321,
        'B' => 0o70654000,
        'L' => 0o70000000,
        'S' => 0o77777777,
        'T' => 0o06543210,
        _ => IDENTITY,
    }
}

// Of a number above 7, which is no state, it looks at the three lowest bits, and so is safe for any. It takes numbers and no
// `LockState`, since maps are composed digit by digit.
fn image_of(map: u32, state: u8) -> u8
    ensures is { state ≤ last_state → result ≡ image map state }
    ensures small { result ≤ last_state }
{
    ((map >> (3 * u32::from(state % 8))) % 8) as u8
}

// Each state goes through the earlier map and then the later. The digits are set from the highest down.
#[tactic(auto, using(crate::specs::MapLaws::compose_room))]
fn compose(earlier: u32, later: u32) -> u32
    ensures { result ≡ packed (through earlier later) }
{
    let mut map = 0;
    for state in (0..8).rev() {
        let between = image_of(earlier, state);
        let end = image_of(later, between);
        map = map * 8 + u32::from(end);
    }
    map
}

// The letter's map holds its row of next states.
#[tactic(auto, using(crate::specs::LockLaws::letter_steps))]
fn next_state(letter: char, state: u8) -> u8
    ensures is { state ≤ last_state → result ≡ next_state letter state }
    ensures small { result ≤ last_state }
{
    image_of(map_of(letter), state)
}

impl Summary for LockMap {
    ghost joins = { lock_joins };

    ghost laws = { map_laws };

    fn empty() -> LockMap {
        LockMap { bits: IDENTITY }
    }

    fn join(self, later: LockMap) -> LockMap {
        LockMap {
            bits: compose(self.bits, later.bits),
        }
    }
}

impl Station for LockMap {
    type Item = LockEvent;

    type State = LockState;

    ghost rules = { lock_rules };

    ghost steps = { lock_steps };

    ghost agreement = { lock_agrees };

    fn step(state: LockState, item: LockEvent) -> LockState {
        LockState::numbered(next_state(item.letter(), state.number()))
    }

    fn of_item(item: LockEvent) -> LockMap {
        LockMap {
            bits: map_of(item.letter()),
        }
    }

    fn effect(self, state: LockState) -> LockState {
        LockState::numbered(image_of(self.bits, state.number()))
    }
}
