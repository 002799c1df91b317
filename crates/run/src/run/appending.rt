ghost use Rattle.std.specs.Prelude.{IsErr, IsSome};
ghost use Rattle.run.specs.Calls.{Append, AtPosition, answer_by};
ghost use Rattle.run.specs.Serving.{Keeps, Serves};

use crate::run::Run;
use station::{Refusal, Station};
use tree::{capacity_of, write_leaf};

impl<'a, K: Station> Run<'a, K> {
    // Adds an item, and answers its position.
    pub fn append(&mut self, item: K::Item) -> Result<usize, Refusal>
        ensures serves { Serves K.Summary.joins K.Station.rules (Append item) self.old self.new (answer_by AtPosition result) }
        ensures keeps { Keeps self.old self.new result }
        ensures tried { IsSome self.old.trial → IsErr result }
    {
        self.ensure_settled()?;
        let position = self.length;
        if position >= capacity_of(self.cells.len()) {
            return Err(Refusal::NoRoom);
        }
        write_leaf(self.cells, position, K::of_item(item))?;
        self.length = position + 1;
        Ok(position)
    }
}
