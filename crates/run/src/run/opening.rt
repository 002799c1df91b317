ghost use Rattle.std.specs.Prelude.{◌≡◌, length};
ghost use Rattle.run.specs.Serving.{OnlyCells, Opens};
ghost use Rattle.tree.specs.Capacity.{IsCapacity, capacity};

use crate::run::Run;
use station::Station;
use tree::{capacity_of, empty_cells};

impl<'a, K: Station> Run<'a, K> {
    // Opens a run over the cells: its trace is empty, and no trial is open.
    pub fn open(cells: &'a mut [K], number: u16) -> Run<'a, K>
        ensures met { Opens K.Summary.joins K.Station.rules cells.old number result }
        ensures same { result.cells.ghost_name ≡ cells.entry.ghost_name }
    {
        empty_cells(cells);
        Run {
            cells,
            length: 0,
            number,
            trial: None,
        }
    }

    // How many entries the run has room for.
    pub fn capacity(&self) -> usize
        ensures is { result ≡ capacity (length self.now.cells.now) }
        ensures largest { IsCapacity (length self.now.cells.now) result }
    {
        capacity_of(self.cells.len())
    }

    // The run's cells, for who wants to look at each.
    pub fn cells(&self) -> &[K]
        ensures is { result.now ≡ self.now.cells.now }
        ensures only { OnlyCells K.Summary.joins K.Station.rules self.now result.now }
    {
        self.cells
    }
}
