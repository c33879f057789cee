ghost use Rattle.std.specs.Prelude.{◌≡◌, ◌≤◌, length};
ghost use Rattle.machine.specs.Box.{written};
ghost use Rattle.machine.specs.Cells.{job_labels, cells_for};
ghost use Rattle.machine.specs.Runnables.{programme_of};
ghost use Rattle.machine.specs.Typed.{CellsHold};
ghost use Rattle.rules.specs.Program.{cell_types};

use crate::runnable::Runnable;
use programme::decode::type_in;
use rules::types::is_integer;

// Lays the cells that a run begins with on the front of the sheet: the job's words fill the integer cells in their order, and the
// others come from the image. The rest of the sheet is left as it was.
pub fn lay_cells(image: Runnable<'_>, job: &[u32], sheet: &mut [u32])
    requires job { length job.now ≡ length (job_labels (programme_of image)) }
    requires room { length (cell_types (programme_of image)) ≤ length sheet.old }
    ensures sheet { sheet.new ≡ written (cells_for (programme_of image.entry) job.now) sheet.old }
    ensures hold { CellsHold (programme_of image.entry) (cells_for (programme_of image.entry) job.now) }
{
    let mut words = job.iter();
    let cells = image.tuples().flat_map(|tuple| image.cells_of(tuple));
    // By the cell's place: of what a `zip` with `iter_mut` lends a proof does not know what was written there.
    for (place, (ty, plain)) in cells.enumerate() {
        sheet[place] = if is_integer(type_in(*ty)) {
            *words.next().unwrap()
        } else {
            *plain
        };
    }
}
