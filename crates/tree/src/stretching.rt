ghost use Rattle.tree.specs.Answers.{Stretches};

use crate::placing::leaves_of;
use station::{Refusal, Summary};
use std::ops::Range;

// The join of the leaves of a range of places: at most two cells of each level are joined, from the leaves up.
pub fn join_leaves<S: Summary>(cells: &[S], places: Range<usize>) -> Result<S, Refusal>
    ensures { Stretches S.Summary.joins cells.now places.start places.end result }
{
    let leaves = leaves_of(cells.len(), places)?;
    let mut low = leaves.start;
    let mut high = leaves.end;
    let mut front = S::empty();
    let mut back = S::empty();
    // Where a level begins and ends follows from the one below it, so a `for` over the levels would be no plainer.
    while low < high {
        if low % 2 == 1 {
            front = front.join(cells[low]);
            low += 1;
        }
        if high % 2 == 1 {
            high -= 1;
            back = cells[high].join(back);
        }
        low /= 2;
        high /= 2;
    }
    Ok(front.join(back))
}
