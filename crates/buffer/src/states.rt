ghost use Rattle.std.specs.Prelude.{◌≡◌, Some};
ghost use Rattle.buffer.specs.Steps.{buffer_state, state_text};
ghost use Rattle.buffer.specs.Summaries.{buffer_rules};

use std::fmt;

// A buffer between two slots. The tallies of what was lost and served so far count modulo 2^32.
#[derive(Clone, Copy, PartialEq, Eq, Debug)]
pub struct BufferState {
    queue: u16,
    lost: u32,
    served: u32,
}

impl BufferState {
    pub fn new(queue: u16, lost: u32, served: u32) -> BufferState
        ensures is { result ≡ buffer_state queue lost served }
        ensures counts { buffer_rules.is_state result }
    {
        BufferState {
            queue,
            lost,
            served,
        }
    }

    // Queue, lost and served.
    pub fn numbers(self) -> (u16, u32, u32)
        ensures { result ≡ (self.queue, self.lost, self.served) }
    {
        (self.queue, self.lost, self.served)
    }
}

// Written out: a pass starts from zeros because the rules say so, and a derive would not be held to that here.
impl Default for BufferState {
    ghost is_default = { λ s. s ≡ buffer_state 0 0 0 };

    fn default() -> BufferState {
        BufferState {
            queue: 0,
            lost: 0,
            served: 0,
        }
    }
}

// The three numbers with a space between.
impl fmt::Display for BufferState {
    ghost output = { λ s. Some (state_text s) };

    fn fmt<W: fmt::Write>(&self, f: &mut fmt::Formatter<W>) -> fmt::Result {
        let (queue, lost, served) = self.numbers();
        write!(f, "{queue} {lost} {served}")
    }
}
