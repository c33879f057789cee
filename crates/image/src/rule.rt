ghost use Rattle.image.specs.Layout.{number_of};
ghost use Rattle.std.specs.Prelude.{◌≡◌};

use crate::fault::Fault;

// The rules of the layout pass. Refusals go by number, and several rules share one.
#[derive(Clone, Copy, PartialEq, Eq)]
pub enum LayoutRule {
    // 1: an image has at most 2,048 words
    TooLong,
    // 2: the word's kind may stand here
    KindOutOfPlace,
    // 2: a field that the word does not name is zero
    FieldNotZero,
    // 2: the image does not end inside an item
    CutShort,
    // 3: a section has room for the item
    TooManyItems,
    // 3: the item's own count or depth lies within its limits
    SizeOutOfRange,
    // 3: all tuples have at most 256 cells together
    TooManyCells,
    // 3: there is a block
    NoBlock,
}

impl LayoutRule {
    // The refusal's number.
    pub fn number(self) -> u8
        ensures { result ≡ number_of self }
    {
        match self {
            LayoutRule::TooLong => 1,
            LayoutRule::KindOutOfPlace => 2,
            LayoutRule::FieldNotZero => 2,
            LayoutRule::CutShort => 2,
            LayoutRule::TooManyItems => 3,
            LayoutRule::SizeOutOfRange => 3,
            LayoutRule::TooManyCells => 3,
            LayoutRule::NoBlock => 3,
        }
    }
}

pub type LayoutFault = Fault<LayoutRule>;
