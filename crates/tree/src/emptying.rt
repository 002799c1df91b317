ghost use Rattle.std.specs.Prelude.{◌≡◌, length, replicate};
ghost use Rattle.tree.specs.Answers.{places_of};
ghost use Rattle.tree.specs.Cells.{Emptied};

use crate::capacity::capacity_of;
use station::Summary;

// Empties these cells, all of them. A slice's `fill` asks for a clone that cannot fail, which `Copy` alone does not promise.
pub(crate) fn empty_all<S: Summary>(cells: &mut [S])
    ensures { cells.new ≡ replicate (length cells.old) S.Summary.joins.empty }
{
    let empty = S::empty();
    cells.fill_with(|| empty);
}

// Empties every cell of the tree; cells behind it stay.
pub fn empty_cells<S: Summary>(cells: &mut [S])
    ensures { Emptied S.Summary.joins (places_of cells.old) cells.old cells.new }
{
    let end = 2 * capacity_of(cells.len());
    empty_all(&mut cells[..end]);
}
