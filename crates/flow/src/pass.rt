ghost use Rattle.std.specs.Prelude.{◌≡◌, ◌+◌, ◌^◌, ◌<◌, length};
ghost use Rattle.image.specs.Faults.{answered};
ghost use Rattle.image.specs.Items.{part_of, item_section};
ghost use Rattle.programme.specs.Lookup.{part_piece};
ghost use Rattle.programme.specs.Spelled.{words_in, program_in};
ghost use Rattle.rules.specs.Flow.{part_flow};
ghost use Rattle.rules.specs.Says.{says};
ghost use Rattle.rules.specs.Verdict.{flow_of};

use crate::fault::FlowFault;
use crate::walk::{Stop, check_words};
use image::fault::Fault;
use image::item::Item;
use image::items::Items;
use labels::LabelKind;
use programme::laid_out::LaidOut;

// The first fault of the flow pass: each block from its own signature, word by word.
pub fn check_flow<K: LabelKind>(kind: &K, image: LaidOut<'_>) -> Result<(), FlowFault>
    ensures { answered result ≡ flow_of (K.LabelKind.meaning kind.now) (words_in image.entry) }
{
    for item in Items::of(image.words()) {
        check_item(kind, image, item)?;
    }
    Ok(())
}

// Only blocks have a flow.
fn check_item<K: LabelKind>(kind: &K, image: LaidOut<'_>, item: Item<'_>) -> Result<(), FlowFault>
    requires { (part_of item).place + length (part_of item).words.now < 2 ^ 64 }
    ensures { answered result ≡ part_flow (K.LabelKind.meaning kind.now) (program_in image.entry) (part_of item.entry).place (says (part_piece (item_section item.entry) (part_of item.entry))) }
{
    let Item::Block(part) = item else {
        return Ok(());
    };
    check_words(kind, image, part).map_err(
        |stop: Stop| -> FlowFault
            requires { part.place + 1 + stop.index < 2 ^ 64 }
        {
            Fault {
                rule: stop.stuck.rule,
                place: part.place + 1 + stop.index,
            }
        },
    )
}
