ghost use Rattle.image.specs.Faults.{answered};
ghost use Rattle.programme.specs.Spelled.{words_in};
ghost use Rattle.rules.specs.Verdict.{naming_of};
ghost use Rattle.std.specs.Prelude.{◌≡◌};

use crate::fault::NamingFault;
use crate::names::Names;
use image::items::Items;
use labels::LabelKind;
use programme::laid_out::LaidOut;

// What the naming pass finds, item by item from the front.
pub fn check_names<K: LabelKind>(kind: &K, image: LaidOut<'_>) -> Result<(), NamingFault>
    ensures { answered result ≡ naming_of (K.LabelKind.meaning kind.now) (words_in image.entry) }
{
    let names = Names { kind, image };
    for item in Items::of(image.words()) {
        names.item_fault(item)?;
    }
    Ok(())
}
