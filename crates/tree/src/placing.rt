ghost use Rattle.std.specs.Prelude.{◌≡◌, ◌+◌, ◌<◌, ◌≤◌, ◌⊎◌, MatchResult};
ghost use Rattle.station.specs.declared.refusals.Refusal.TheVariants.{NoSuchPosition};
ghost use Rattle.tree.specs.Capacity.{capacity};
ghost use Rattle.tree.specs.Placing.{IsLeaf, AreLeaves};

use crate::capacity::capacity_of;
use station::Refusal;
use std::ops::Range;

// The leaf of one place in a tree over so many cells, if it has that place.
pub(crate) fn leaf_of(cells: usize, place: usize) -> Result<usize, Refusal>
    ensures { MatchResult result (IsLeaf cells place) (λ e. (capacity cells ≤ place) × (e ≡ NoSuchPosition)) }
{
    let count = capacity_of(cells);
    if place >= count {
        return Err(Refusal::NoSuchPosition);
    }
    Ok(count + place)
}

// The leaves of a range of places, if it has them all.
pub(crate) fn leaves_of(cells: usize, places: Range<usize>) -> Result<Range<usize>, Refusal>
    ensures { MatchResult result (AreLeaves cells places) (λ e. ((places.end < places.start) ⊎ (capacity cells < places.end)) × (e ≡ NoSuchPosition)) }
{
    let count = capacity_of(cells);
    if places.start > places.end || places.end > count {
        return Err(Refusal::NoSuchPosition);
    }
    Ok(count + places.start..count + places.end)
}
