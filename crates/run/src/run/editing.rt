ghost use Rattle.run.specs.Calls.{Cut, Replace, Withdraw, answer_by, done, put_call};
ghost use Rattle.run.specs.Serving.{Keeps, Serves};

use crate::run::Run;
use station::{Refusal, Station};
use traces::{Entry, entry_summary};
use tree::{clear_leaves, write_leaf};

impl<'a, K: Station> Run<'a, K> {
    // Puts an entry at a position.
    fn put(&mut self, position: usize, entry: Entry<K::Item>) -> Result<(), Refusal>
        ensures serves { Serves K.Summary.joins K.Station.rules (put_call position entry) self.old self.new (answer_by done result) }
        ensures keeps { Keeps self.old self.new result }
    {
        self.ensure_editable(position)?;
        write_leaf(self.cells, position, entry_summary::<K>(entry))?;
        Ok(())
    }

    // Puts an item at a position, withdrawn or not.
    pub fn replace(&mut self, position: usize, item: K::Item) -> Result<(), Refusal>
        ensures serves { Serves K.Summary.joins K.Station.rules (Replace position item) self.old self.new (answer_by done result) }
        ensures keeps { Keeps self.old self.new result }
    {
        self.put(position, Some(item))
    }

    // Withdraws the entry at a position.
    pub fn withdraw(&mut self, position: usize) -> Result<(), Refusal>
        ensures serves { Serves K.Summary.joins K.Station.rules (Withdraw position) self.old self.new (answer_by done result) }
        ensures keeps { Keeps self.old self.new result }
    {
        self.put(position, None)
    }

    // Keeps the first entries, so many of them; the places of the others are free again.
    pub fn cut(&mut self, kept: usize) -> Result<(), Refusal>
        ensures serves { Serves K.Summary.joins K.Station.rules (Cut kept) self.old self.new (answer_by done result) }
        ensures keeps { Keeps self.old self.new result }
    {
        self.ensure_settled()?;
        let length = self.length;
        if kept > length {
            return Err(Refusal::NoSuchPosition);
        }
        clear_leaves(self.cells, kept..length)?;
        self.length = kept;
        Ok(())
    }
}
