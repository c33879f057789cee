ghost use Rattle.std.specs.Prelude.{◌≤◌, length};
ghost use Rattle.image.specs.Counts.{total};

use crate::survey::Survey;

mod reader;

pub use reader::survey;

// The items of an image that are still to come. They are read off the words before the image's first fault, so an item with a fault
// in it is never handed out.
#[derive(Drop)]
pub struct Items<'a> {
    // the words before the first fault
    front: &'a [u32],
    // the items that were handed out
    seen: Survey,
    ghost within: { seen.end ≤ length front.now },
    ghost few: { total seen.counts ≤ seen.end },
    ghost sparse: { seen.cells ≤ seen.end },
}
