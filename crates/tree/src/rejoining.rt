ghost use Rattle.std.specs.Prelude.{◌*◌, ◌≤◌, length};
ghost use Rattle.tree.specs.Answers.{JoinedAbove, Rejoins, places_of};
ghost use Rattle.tree.specs.Levels.{Above, LevelJoined};

use crate::placing::leaves_of;
use station::{Refusal, Summary};
use std::ops::Range;

// Joins the cells of a part of a level, each from the two below it; above them cells are wrong then.
fn join_level<S: Summary>(cells: &mut [S], level: Range<usize>)
    requires { 2 * level.end ≤ length cells.old }
    ensures { LevelJoined S.Summary.joins level.start level.end (Above level.start level.end) cells.old cells.new }
{
    // By index, since a cell and the two below it lie in one slice.
    for k in level {
        cells[k] = cells[2 * k].join(cells[2 * k + 1]);
    }
}

// Joins anew all that lies above some leaves, level by level, each cell once. Nothing lies above none.
pub(crate) fn rejoin<S: Summary>(cells: &mut [S], leaves: Range<usize>)
    requires first { places_of cells.old ≤ leaves.start }
    requires last { leaves.end ≤ 2 * places_of cells.old }
    ensures { JoinedAbove S.Summary.joins leaves.start leaves.end cells.old cells.new }
{
    if leaves.is_empty() {
        return;
    }
    let mut low = leaves.start;
    let mut high = leaves.end;
    // Where a level begins and ends follows from the one below it, so a `for` over the levels would be no plainer.
    while low > 1 {
        low /= 2;
        high = high.div_ceil(2);
        join_level(cells, low..high);
    }
}

// Joins anew the cells above a range of leaves, each once, for who has written these leaves.
pub fn rejoin_leaves<S: Summary>(cells: &mut [S], places: Range<usize>) -> Result<(), Refusal>
    ensures { Rejoins S.Summary.joins places.start places.end cells.old cells.new result }
{
    let leaves = leaves_of(cells.len(), places)?;
    rejoin(cells, leaves);
    Ok(())
}
