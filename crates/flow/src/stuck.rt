ghost use Rattle.flow.specs.Stuck.{StuckThere};
ghost use Rattle.programme.specs.Spelled.{program_in};

use crate::walk::check_words;
use image::instruction::Instruction;
use image::item::{Item, Part};
use image::items::Items;
use labels::LabelKind;
use programme::laid_out::LaidOut;
use rules::rule::FlowRule;
use typing::state::State;

// An instruction that breaks a rule, with what is known before it: what a sentence about the fault can show.
#[derive(Drop)]
pub struct Stuck {
    pub state: State,
    pub instruction: Instruction,
    pub rule: FlowRule,
}

// Where the block that has a word at the place breaks a rule first, if it breaks any.
pub fn stuck_at<K: LabelKind>(kind: &K, image: LaidOut<'_>, place: usize) -> Option<Stuck>
    ensures { StuckThere (K.LabelKind.meaning kind.now) (program_in image.entry) result }
{
    let block = Items::of(image.words()).find_map(|item| block_at(item, place))?;
    check_words(kind, image, block).err().map(|stop| stop.stuck)
}

// The item, where it is a block that has a word behind its head at the place.
fn block_at(item: Item<'_>, place: usize) -> Option<Part<'_>> {
    match item {
        Item::Block(part) if place > part.place && place - part.place < part.words.len() => {
            Some(part)
        }
        _ => None,
    }
}
