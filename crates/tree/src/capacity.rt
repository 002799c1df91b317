ghost use Rattle.std.specs.Prelude.{◌≡◌};
ghost use Rattle.tree.specs.Capacity.{IsCapacity, capacity};

// The most places that a tree has, whatever cells it is given.
const MOST_PLACES: usize = 4_096;

// How many places a tree over so many cells has: the largest power of two of which the cells hold twice as many.
pub fn capacity_of(cells: usize) -> usize
    ensures is { result ≡ capacity cells }
    ensures largest { IsCapacity cells result }
{
    match (cells / 2).checked_ilog2() {
        Some(power) => MOST_PLACES.min(1 << power),
        None => 0,
    }
}
