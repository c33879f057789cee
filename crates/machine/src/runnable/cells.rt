ghost use Rattle.std.specs.Prelude.{◌≡◌, ◌≤◌, count_by, length};
ghost use Rattle.machine.specs.Cells.{job_labels};
ghost use Rattle.machine.specs.Machine.{cell_place};
ghost use Rattle.machine.specs.Runnables.{programme_of};
ghost use Rattle.rules.specs.Fit.{is_integer};
ghost use Rattle.rules.specs.Program.{cell_types, base_in, shape_at};

use crate::runnable::Runnable;
use crate::types::integer_types;
use image::items::survey;
use programme::parts::TupleWords;

impl<'a> Runnable<'a> {
    // How many cells all tuples have.
    pub fn cell_count(self) -> usize
        ensures value { result ≡ length (cell_types (programme_of self.entry)) }
        ensures few { result ≤ 256 }
    {
        survey(self.image.words()).cells
    }

    // How many words a job has: one for each integer cell.
    pub fn job_length(self) -> usize
        ensures value { result ≡ length (job_labels (programme_of self.entry)) }
        ensures few { result ≤ 256 }
    {
        self.tuples().map(|tuple| self.integer_cells(tuple)).sum()
    }

    // How many cells of the tuple a job fills.
    fn integer_cells(self, tuple: TupleWords<'_>) -> usize
        ensures { result ≡ count_by is_integer (shape_at (programme_of self.entry) tuple.entry.shape) }
    {
        integer_types(self.image.shape_types(tuple.shape))
    }

    // Where a cell of the tuple at a pointer lies among all cells.
    pub(crate) fn place(self, pointer: u32, cell: u8) -> usize
        ensures { result ≡ cell_place (programme_of self.entry) pointer cell }
    {
        self.base(pointer) + usize::from(cell)
    }

    // Where the cells of the tuple begin among all cells.
    fn base(self, tuple: u32) -> usize
        ensures value { result ≡ base_in (programme_of self.entry).tuples tuple }
        ensures few { result ≤ 256 }
    {
        self.tuples()
            .take(tuple as usize)
            .map(|tuple| tuple.words.len())
            .sum()
    }
}
