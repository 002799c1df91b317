ghost use Rattle.tree.specs.Answers.{Writes, placed, ranged, with_leaf, without_leaves};

use crate::emptying::empty_all;
use crate::placing::{leaf_of, leaves_of};
use crate::rejoining::rejoin;
use station::{Refusal, Summary};
use std::ops::Range;

// Writes the leaf of one place and joins anew the cells above it.
pub fn write_leaf<S: Summary>(cells: &mut [S], place: usize, leaf: S) -> Result<(), Refusal>
    ensures { Writes S.Summary.joins (placed cells.old place) cells.old (with_leaf cells.old place leaf) cells.new result }
{
    let at = leaf_of(cells.len(), place)?;
    cells[at] = leaf;
    rejoin(cells, at..at + 1);
    Ok(())
}

// Empties the leaves of a range of places and joins anew the cells above them, each once.
pub fn clear_leaves<S: Summary>(cells: &mut [S], places: Range<usize>) -> Result<(), Refusal>
    ensures { Writes S.Summary.joins (ranged cells.old places.start places.end) cells.old (without_leaves S.Summary.joins cells.old places.start places.end) cells.new result }
{
    let leaves = leaves_of(cells.len(), places)?;
    empty_all(&mut cells[leaves.start..leaves.end]);
    rejoin(cells, leaves);
    Ok(())
}
