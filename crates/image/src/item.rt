ghost use Rattle.image.specs.Items.{part_of, item_section};
ghost use Rattle.std.specs.Prelude.{◌≡◌};

use crate::section::Section;

// A part of an image: its place, its number within its section, and its words, the head first. Anybody may make one of any words, so what
// holds of those that `Items` hands out is said where it is used.
#[derive(Clone, Copy)]
pub struct Part<'a> {
    pub place: usize,
    pub number: usize,
    pub words: &'a [u32],
}

// An item of an image, as the part of the image that it is.
#[derive(Clone, Copy)]
pub enum Item<'a> {
    Channel(Part<'a>),
    Shape(Part<'a>),
    Signature(Part<'a>),
    Tuple(Part<'a>),
    Block(Part<'a>),
}

impl<'a> Item<'a> {
    // The part as an item of the section.
    pub fn of(section: Section, part: Part<'a>) -> Item<'a>
        ensures part { part_of result ≡ part.entry }
        ensures section { item_section result ≡ section }
    {
        match section {
            Section::Channels => Item::Channel(part),
            Section::Shapes => Item::Shape(part),
            Section::Signatures => Item::Signature(part),
            Section::Tuples => Item::Tuple(part),
            Section::Blocks => Item::Block(part),
        }
    }

    pub fn part(self) -> Part<'a>
        ensures { result ≡ part_of self.entry }
    {
        match self {
            Item::Channel(part) => part,
            Item::Shape(part) => part,
            Item::Signature(part) => part,
            Item::Tuple(part) => part,
            Item::Block(part) => part,
        }
    }

    pub fn section(self) -> Section
        ensures { result ≡ item_section self.entry }
    {
        match self {
            Item::Channel(_) => Section::Channels,
            Item::Shape(_) => Section::Shapes,
            Item::Signature(_) => Section::Signatures,
            Item::Tuple(_) => Section::Tuples,
            Item::Block(_) => Section::Blocks,
        }
    }
}
