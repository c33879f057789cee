ghost use Rattle.programme.specs.Spelled.{program_in};
ghost use Rattle.readers.specs.Clashes.{Visible, Agree, FirstClash, JobClash, CellClash};
ghost use Rattle.secrecy.specs.Seen.{SameJobs, SameCells};
ghost use Rattle.std.specs.Prelude.{length, IfOk, MatchOption};

use crate::cells::{cell_labels, job_labels};
use crate::sight::Reader;
use crate::words::word_at;
use labels::LabelKind;
use std::alloc::{AllocError, Global};

impl<'k, 'i, K: LabelKind> Reader<'k, 'i, K> {
    // The first word that a job has in which the two jobs differ and that the reader may see. There is none exactly where the reader
    // may learn nothing by the two jobs' words.
    pub fn first_job_clash(
        self,
        heap: Global,
        xs: &[u32],
        ys: &[u32],
    ) -> Result<Option<usize>, AllocError>
        ensures { IfOk result (λ o. MatchOption o (SameJobs (K.LabelKind.meaning self.entry.kind.now) (program_in self.entry.image) self.entry.label xs.now ys.now) (λ at. JobClash (K.LabelKind.meaning self.entry.kind.now) (program_in self.entry.image) self.entry.label xs.now ys.now at)) }
    {
        let labels = job_labels(heap, self.image)?;
        Ok(self.first_clash(labels.as_slice(), xs, ys))
    }

    // The first cell in which the two lists of cells differ and that the reader may see. The lists may go on past the cells.
    pub fn first_cell_clash(
        self,
        heap: Global,
        xs: &[u32],
        ys: &[u32],
    ) -> Result<Option<usize>, AllocError>
        ensures { IfOk result (λ o. MatchOption o (SameCells (K.LabelKind.meaning self.entry.kind.now) (program_in self.entry.image) self.entry.label xs.now ys.now) (λ at. CellClash (K.LabelKind.meaning self.entry.kind.now) (program_in self.entry.image) self.entry.label xs.now ys.now at)) }
    {
        let labels = cell_labels(heap, self.image)?;
        Ok(self.first_clash(labels.as_slice(), xs, ys))
    }

    // The first place that has one of the labels, where the two lists differ and the reader may see the label.
    fn first_clash(self, labels: &[u8], xs: &[u32], ys: &[u32]) -> Option<usize>
        ensures { MatchOption result (Agree (Visible (K.LabelKind.meaning self.entry.kind.now) self.entry.label labels.now) (length labels.now) xs.now ys.now) (λ at. FirstClash (Visible (K.LabelKind.meaning self.entry.kind.now) self.entry.label labels.now) (length labels.now) xs.now ys.now at) }
    {
        labels.iter().enumerate().position(|(at, label)| {
            self.kind.at_or_below(*label, self.label) && word_at(xs, at) != word_at(ys, at)
        })
    }
}
