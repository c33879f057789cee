ghost use Rattle.programme.specs.Spelled.{program_in};
ghost use Rattle.secrecy.specs.Seen.{seen};
ghost use Rattle.std.specs.Prelude.{◌≡◌, IfOk, slice_index};

use labels::LabelKind;
use machine::strike::Strike;
use programme::laid_out::LaidOut;
use std::alloc::{AllocError, Global};

// A reader of what an image prints: the reader's label, and the kind by which labels compare.
#[derive_where(Clone, Copy)]
pub struct Reader<'k, 'i, K> {
    pub kind: &'k K,
    pub image: LaidOut<'i>,
    pub label: u8,
}

impl<'k, 'i, K: LabelKind> Reader<'k, 'i, K> {
    // Whether the reader may see what is struck on the channel. A channel that the programme lacks counts as one of label 0.
    pub fn may_see(self, channel: u8) -> bool
        ensures { result ≡ (K.LabelKind.meaning self.entry.kind.now).below (slice_index (program_in self.entry.image).channels channel) self.entry.label }
    {
        let label = self.image.channel(channel).unwrap_or(0);
        self.kind.at_or_below(label, self.label)
    }

    // Those of the strikes that the reader may see, in their order.
    #[tactic(auto, using(crate::proofs::Filtering::sighted))]
    pub fn seen(self, heap: Global, strikes: &[Strike]) -> Result<Vec<Strike>, AllocError>
        ensures { IfOk result (λ v. v.items ≡ seen (K.LabelKind.meaning self.entry.kind.now) (program_in self.entry.image) self.entry.label strikes.now) }
    {
        strikes
            .iter()
            .copied()
            .filter(|strike| self.may_see(strike.channel))
            .collect(heap)
    }
}
