ghost use Rattle.std.specs.Prelude.{◌≡◌, slice_set};
ghost use Rattle.tree.specs.Answers.{Writes, placed, with_old, with_trial};

use crate::leaves::write_leaf;
use crate::placing::leaf_of;
use station::{Refusal, Summary};

// Keeps the leaf of one place in cell 0, which is no part of the tree, and writes another.
pub fn try_leaf<S: Summary>(cells: &mut [S], place: usize, leaf: S) -> Result<(), Refusal>
    ensures { Writes S.Summary.joins (placed cells.old place) cells.old (with_trial S.Summary.joins cells.old place leaf) cells.new result }
{
    let at = leaf_of(cells.len(), place)?;
    cells[0] = cells[at];
    write_leaf(cells, place, leaf)
}

// Writes the leaf that cell 0 kept again, and empties cell 0.
pub fn restore_leaf<S: Summary>(cells: &mut [S], place: usize) -> Result<(), Refusal>
    ensures { Writes S.Summary.joins (placed cells.old place) cells.old (with_old S.Summary.joins cells.old place) cells.new result }
{
    leaf_of(cells.len(), place)?;
    let kept = cells[0];
    release_leaf(cells);
    write_leaf(cells, place, kept)
}

// Lets go of the leaf that cell 0 kept.
pub fn release_leaf<S: Summary>(cells: &mut [S])
    ensures { cells.new ≡ slice_set cells.old 0 S.Summary.joins.empty }
{
    if let Some(first) = cells.first_mut() {
        *first = S::empty();
    }
}
