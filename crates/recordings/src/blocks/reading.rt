ghost use Rattle.std.specs.Prelude.{◌≡◌, ◌+◌, ◌<◌, ◌^◌, [], length, IfOk, OnOk, nat_lt, if◌then◌else◌};
ghost use Rattle.recordings.specs.Hand.{at_hand, number_at_hand, read_count, unread};
ghost use Rattle.recordings.specs.Input.{GivesBlock, IsUninterrupted};

use crate::blocks::Blocks;
use crate::blocks::filling::{endless, fill};
use block::BLOCK_SIZE;
use std::io;
use std::io::Read;

impl<R: Read> Blocks<R> {
    // In front of the first block.
    pub fn new(input: R) -> Blocks<R>
        ensures none { at_hand result ≡ [] }
        ensures uncounted { read_count result ≡ 0 }
        ensures unread { unread R.remaining result ≡ R.remaining input }
    {
        Blocks {
            input,
            block: [0; BLOCK_SIZE],
            filled: 0,
            count: 0,
        }
    }

    // Goes on to the next block. False at the end of the input, with nothing at hand. The block is no part of the answer,
    // since it stays at hand from the call that finds the first data block to the one that loads it. Nothing says that an
    // input ends, so reading is given up where the blocks can no longer be counted.
    pub fn advance(&mut self) -> io::Result<bool>
        ensures more { IfOk result (λ more. more ≡ nat_lt 0 (length (at_hand self.new))) }
        ensures counted { IfOk result (λ more. read_count self.new ≡ (if more then read_count self.old + 1 else read_count self.old)) }
        ensures next { OnOk result (GivesBlock (unread R.remaining self.old) (unread R.remaining self.new) (at_hand self.new)) }
        ensures retried { IsUninterrupted result }
        ensures countable { IfOk result (λ more. read_count self.new < 2 ^ 64) }
    {
        let count = self.count.checked_add(1).ok_or_else(endless)?;
        let filled = fill(&mut self.input, &mut self.block)?;
        self.filled = filled;
        if filled > 0 {
            self.count = count;
        }
        Ok(filled > 0)
    }

    // The block at hand.
    pub fn block(&self) -> &[u8]
        ensures { result.now ≡ at_hand self.now }
    {
        &self.block[..self.filled]
    }

    // The number of the block at hand, from 0 on. Behind the end it is that of the last, and in front of the first 0.
    pub fn index(&self) -> u64
        ensures { result ≡ number_at_hand self.now }
    {
        self.count.saturating_sub(1)
    }
}
