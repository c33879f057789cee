ghost use Rattle.press_box.specs.Model.{stored};
ghost use Rattle.press_box.specs.Runs.{left, order};
ghost use Rattle.machine.specs.Box.{ran, stops_box};
ghost use Rattle.machine.specs.Cells.{job_labels};
ghost use Rattle.rules.specs.Program.{cell_types};
ghost use Rattle.rules.specs.Says.{program_of};
ghost use Rattle.machine.specs.Runnables.{words_of};
ghost use Rattle.std.specs.Prelude.{◌≡◌, ◌<◌, length, IfNone, IfSome};

use super::ImageStore;
use crate::fault::RunFault;
use machine::lay::lay_cells;
use machine::ran::{End, Ran};
use machine::run::run;
use machine::runnable::Runnable;
use machine::strike::Strike;

impl ImageStore {
    // Runs the image that is held on a job. A run asks no label kind: what is held meets every rule that it rests on.
    pub fn run(
        &mut self,
        job: &[u32],
        fuel: u32,
        strip: &mut [Strike],
        sheet: &mut [u32],
    ) -> Result<Ran, RunFault>
        ensures { left result (stored self.new) strip.new sheet.new ≡ ran (stored self.old) (order job.now fuel strip.old sheet.old) }
    {
        if self.len == 0 {
            return Err(RunFault::Empty);
        }
        if self.stopped {
            return Err(RunFault::Stopped);
        }
        let image = Runnable::of(self.image());
        if job.len() != image.job_length() {
            return Err(RunFault::JobLength);
        }
        let cells = image.cell_count();
        if sheet.len() < cells {
            return Err(RunFault::SheetTooShort);
        }
        lay_cells(image, job, sheet);
        let ran = run(image, fuel, strip, &mut sheet[0..cells]);
        self.stopped = stops_box(ran.end);
        Ok(ran)
    }

    // The image that is held, as one that may be run.
    fn runnable(&self) -> Option<Runnable<'_>>
        ensures empty { IfNone result (length (stored self.now).image ≡ 0) }
        ensures some { IfSome result (λ r. 0 < length (stored self.now).image) }
        ensures held { IfSome result (λ r. words_of r ≡ (stored self.now).image) }
    {
        if self.len == 0 {
            return None;
        }
        Some(Runnable::of(self.image()))
    }

    // How many words a job for the image that is held has; none where there is no image.
    pub fn job_length(&self) -> usize
        ensures { result ≡ length (job_labels (program_of (stored self.now).image)) }
    {
        self.runnable().map_or(0, |image| image.job_length())
    }

    // How many cells the image that is held has; none where there is no image.
    pub fn cell_count(&self) -> usize
        ensures { result ≡ length (cell_types (program_of (stored self.now).image)) }
    {
        self.runnable().map_or(0, |image| image.cell_count())
    }
}

// Whether a run that ended so stops the box.
fn stops_box(end: End) -> bool
    ensures { result ≡ stops_box end }
{
    matches!(end, End::Spent | End::Full)
}
