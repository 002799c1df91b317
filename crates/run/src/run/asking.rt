ghost use Rattle.run.specs.Calls.{AskLength, AskState, AskStretch, LengthIs, StateIs, SummaryIs, answer_by};
ghost use Rattle.run.specs.Serving.{Serves, StretchReplays, Tells};

use crate::run::Run;
use station::{Refusal, Station};
use std::ops::Range;
use tree::join_leaves;

impl<'a, K: Station> Run<'a, K> {
    // How many entries the run has.
    pub fn length(&self) -> usize
        ensures { Serves K.Summary.joins K.Station.rules AskLength self.now self.now (LengthIs result) }
    {
        self.length
    }

    // The summary of the entries from one position up to another: its effect on every state is their replay.
    pub fn stretch(&self, entries: Range<usize>) -> Result<K, Refusal>
        ensures serves { Serves K.Summary.joins K.Station.rules (AskStretch entries.start entries.end) self.now self.now (answer_by SummaryIs result) }
        ensures replays { Tells K.Summary.joins K.Station.rules self.now (StretchReplays K.Station.rules entries.start entries.end result) }
    {
        if entries.end > self.length {
            return Err(Refusal::NoSuchPosition);
        }
        join_leaves(self.cells, entries)
    }

    // The state behind the first entries, so many of them, from a start: what their replay gives.
    pub fn state(&self, entries: usize, start: K::State) -> Result<K::State, Refusal>
        ensures { Serves K.Summary.joins K.Station.rules (AskState entries start) self.now self.now (answer_by StateIs result) }
    {
        let front = self.stretch(0..entries)?;
        Ok(front.effect(start))
    }
}
