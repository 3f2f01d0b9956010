// The cells of a run.
ghost use Rattle.std.specs.Prelude.{◌≡◌, ◌+◌, ◌*◌, ◌<◌, drop};
ghost use Rattle.capture_cells.specs.Cells.{cell_in};
ghost use Rattle.capture_steps.specs.Contract.{Lies};

use crate::types::Run;
use capture_cells::Cell;

impl Run {
    // Cell k of a run that lies whole in the piece.
    pub fn cell(self, piece: &[u8], k: u64) -> Cell
        requires lies { Lies self piece.now }
        requires of_the_run { k < self.many }
        ensures { (result ≡ cell_in self.time (self.place + 188 * k) (drop (188 * k) (drop self.at piece.now)))
            × (result.identifier < 8192) }
    {
        let ahead = 188 * k;
        capture_cells::cell_at(
            piece,
            self.at + ahead as usize,
            self.time,
            self.place + ahead,
        )
    }
}
