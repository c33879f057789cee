ghost use Rattle.image.specs.Earliest.{EarliestAndLowest};
ghost use Rattle.image.specs.Faults.{reported, answered};
ghost use Rattle.image.specs.Layout.{outset, onward, layout, number_of, asked_at};
ghost use Rattle.std.specs.Prelude.{◌≡◌, ◌≤◌, length, IfSome, IfErr};

use crate::fault::Fault;
use crate::rule::{LayoutFault, LayoutRule};
use crate::stand::Stand;

// An image has at most so many words.
pub const MOST_WORDS: usize = 2048;

// Walks the words from the front, up to the first fault.
fn scan(words: &[u32]) -> Result<(), LayoutFault>
    ensures within { IfErr result (λ f. f.place ≤ length words.now) }
    ensures value { answered result ≡ onward (length words.now) outset 0 words.now }
{
    let mut stand = Stand::outset();
    for (place, raw) in words.iter().enumerate() {
        stand = Fault::at(place, stand.after(*raw))?;
    }
    Fault::at(words.len(), stand.end())
}

// The first fault of an image: the earliest word, and there the lowest number. An `Option`, since this looks for a fault, and to find
// none is no failure.
#[tactic(auto, using(crate::proofs::FirstFault::first_fault))]
pub fn first_fault(words: &[u32]) -> Option<LayoutFault>
    ensures value { reported result ≡ layout words.now }
    ensures first { EarliestAndLowest number_of (asked_at words.now) (length words.now) (layout words.now) }
    ensures within { IfSome result (λ f. f.place ≤ length words.now) }
{
    if words.len() > MOST_WORDS {
        return Some(Fault {
            rule: LayoutRule::TooLong,
            place: 0,
        });
    }
    scan(words).err()
}
