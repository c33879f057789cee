ghost use Rattle.labels.specs.Mastheads.{mastheads};
ghost use Rattle.labels.specs.Pairs.{pair};
ghost use Rattle.labels.specs.Stages.{stages};
ghost use Rattle.machine.specs.Box.{new_box, loaded, ran};
ghost use Rattle.machine.specs.Cells.{job_labels};
ghost use Rattle.press_box.specs.Model.{model};
ghost use Rattle.press_box.specs.Refusals.{answered};
ghost use Rattle.press_box.specs.Runs.{left, order};
ghost use Rattle.rules.specs.Program.{cell_types};
ghost use Rattle.rules.specs.Says.{program_of};
ghost use Rattle.rules.specs.Verdict.{verdict};
ghost use Rattle.secrecy.specs.Promise.{KeepsPromise};
ghost use Rattle.std.specs.Prelude.{◌≡◌, length};

use crate::fault::{LoadFault, RunFault};
use crate::store::ImageStore;
use labels::{LabelKind, MastheadSet, Pair, Stage};
use machine::ran::Ran;
use machine::strike::Strike;
use secrecy::promises::promise;

// A box for one label kind, with the image of its latest accepted load.
#[derive(Drop)]
pub struct ImprintBox<K> {
    kind: K,
    store: ImageStore,
}

impl<K: LabelKind> ImprintBox<K> {
    // An empty box, not stopped. Whatever loads and runs two such boxes go through, with jobs that differ only in words that a reader may not
    // see, that reader sees no more of them than a reader may: the promise speaks of `load` and `run` by the definitions that their
    // contracts cite.
    pub fn new(kind: K) -> ImprintBox<K>
        ensures model { model result ≡ new_box }
        ensures kind { result.kind ≡ kind }
        ensures promise { KeepsPromise (K.LabelKind.meaning kind) }
    {
        promise();
        ImprintBox {
            kind,
            store: ImageStore::new(),
        }
    }

    // Takes the image if it meets every rule; else answers the first refusal, and nothing changes.
    pub fn load(&mut self, image: &[u32]) -> Result<(), LoadFault>
        ensures answer { answered result ≡ verdict (K.LabelKind.meaning self.old.kind) image.now }
        ensures model { model self.new ≡ loaded (K.LabelKind.meaning self.old.kind) image.now (model self.old) }
        ensures kind { self.new.kind ≡ self.old.kind }
    {
        self.store.load(&self.kind, image)
    }

    // Runs the image on a job, with this much fuel: the strikes go to the front of the strip, the cells to the front of the sheet. A
    // refused run changes nothing. Job, fuel, strip and sheet go one by one, as a press hands them in.
    pub fn run(
        &mut self,
        job: &[u32],
        fuel: u32,
        strip: &mut [Strike],
        sheet: &mut [u32],
    ) -> Result<Ran, RunFault>
        ensures left { left result (model self.new) strip.new sheet.new ≡ ran (model self.old) (order job.now fuel strip.old sheet.old) }
        ensures kind { self.new.kind ≡ self.old.kind }
    {
        self.store.run(job, fuel, strip, sheet)
    }

    // The label kind that the box was made for.
    pub fn kind(&self) -> &K
        ensures { result.now ≡ self.now.kind }
    {
        &self.kind
    }

    // The image of the latest accepted load; no word before any.
    pub fn image(&self) -> &[u32]
        ensures { result.now ≡ (model self.now).image }
    {
        self.store.image()
    }

    // Whether a run stopped the box.
    pub fn is_stopped(&self) -> bool
        ensures { result ≡ (model self.now).stopped }
    {
        self.store.is_stopped()
    }

    // How many words a job for the image has; none where the box is empty.
    pub fn job_length(&self) -> usize
        ensures { result ≡ length (job_labels (program_of (model self.now).image)) }
    {
        self.store.job_length()
    }

    // How many words a sheet needs for the image; none where the box is empty.
    pub fn cell_count(&self) -> usize
        ensures { result ≡ length (cell_types (program_of (model self.now).image)) }
    {
        self.store.cell_count()
    }
}

// ---- boxes for the kinds that there are: the promise at each is an instance of the one that `new` makes, and a function of its own
// names it, for a reader who looks for his kind

pub fn stage_box() -> ImprintBox<Stage>
    ensures model { model result ≡ new_box }
    ensures promise { KeepsPromise stages }
{
    ImprintBox::new(Stage)
}

pub fn masthead_box() -> ImprintBox<MastheadSet>
    ensures model { model result ≡ new_box }
    ensures promise { KeepsPromise mastheads }
{
    ImprintBox::new(MastheadSet)
}

// A box for the pair of any two kinds, pairs too.
pub fn pair_box<A: LabelKind, B: LabelKind>(first: A, second: B) -> ImprintBox<Pair<A, B>>
    ensures model { model result ≡ new_box }
    ensures promise { KeepsPromise (pair (A.LabelKind.meaning first) (B.LabelKind.meaning second)) }
{
    ImprintBox::new(Pair::new(first, second))
}
