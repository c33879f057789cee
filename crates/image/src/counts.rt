ghost use Rattle.std.specs.Prelude.{◌≡◌, ◌+◌, ◌^◌, ◌<◌};
ghost use Rattle.image.specs.Counts.{no_items, count_of, with_one, total};

use crate::section::Section;

// How many items of each section there are.
#[derive(Clone, Copy)]
pub struct Counts {
    pub channels: usize,
    pub shapes: usize,
    pub signatures: usize,
    pub tuples: usize,
    pub blocks: usize,
}

impl Counts {
    pub fn none() -> Counts
        ensures { result ≡ no_items }
    {
        Counts {
            channels: 0,
            shapes: 0,
            signatures: 0,
            tuples: 0,
            blocks: 0,
        }
    }

    pub fn of(&self, section: Section) -> usize
        ensures { result ≡ count_of self.now section }
    {
        match section {
            Section::Channels => self.channels,
            Section::Shapes => self.shapes,
            Section::Signatures => self.signatures,
            Section::Tuples => self.tuples,
            Section::Blocks => self.blocks,
        }
    }

    // One more item of the section.
    pub(crate) fn add(&mut self, section: Section)
        requires { total self.old + 1 < 2 ^ 64 }
        ensures { self.new ≡ with_one self.old section }
    {
        match section {
            Section::Channels => self.channels += 1,
            Section::Shapes => self.shapes += 1,
            Section::Signatures => self.signatures += 1,
            Section::Tuples => self.tuples += 1,
            Section::Blocks => self.blocks += 1,
        }
    }
}
