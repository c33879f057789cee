ghost use Rattle.image.specs.Sections.{rank, most};
ghost use Rattle.std.specs.Prelude.{◌≡◌};

// The five sections of an image: items stand in this order, and are numbered from 0 within their section.
#[derive(Clone, Copy, PartialEq, Eq, PartialOrd, Ord)]
pub enum Section {
    Channels,
    Shapes,
    Signatures,
    Tuples,
    Blocks,
}

impl Section {
    // The section's place in the order, which is also the kind byte of its heads.
    pub fn rank(self) -> u8
        ensures { result ≡ rank self }
    {
        match self {
            Section::Channels => 1,
            Section::Shapes => 2,
            Section::Signatures => 3,
            Section::Tuples => 4,
            Section::Blocks => 5,
        }
    }

    // How many items the section has room for.
    pub fn most(self) -> usize
        ensures { result ≡ most self }
    {
        match self {
            Section::Channels => 16,
            Section::Shapes => 32,
            Section::Signatures => 64,
            Section::Tuples => 64,
            Section::Blocks => 128,
        }
    }
}
