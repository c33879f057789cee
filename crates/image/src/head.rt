ghost use Rattle.image.specs.Heads.{context_of, head_of, head_word, section_of, follows};
ghost use Rattle.std.specs.Prelude.{◌≡◌};

use crate::section::Section;
use crate::word::Word;

// The flow context that a signature promises: empty, or raised to a label until the postdominator block is reached.
#[derive(Clone, Copy, PartialEq, Eq)]
pub enum Context {
    Empty,
    Raised { label: u8, postdominator: u8 },
}

// What the head of an item says.
#[derive(Clone, Copy)]
pub enum Head {
    Channel { label: u8 },
    Shape { cells: u8 },
    Signature { context: Context, depth: u8 },
    Tuple { shape: u8, cells: u8 },
    Block { signature: u8, words: u8 },
}

// The context in a signature's head: the top bit of c says whether it is raised.
impl From<Word> for Context {
    ghost from_gives = { λ w context. context ≡ context_of w };

    fn from(w: Word) -> Context {
        if w.c >= 128 {
            Context::Raised {
                label: w.a,
                postdominator: w.b,
            }
        } else {
            Context::Empty
        }
    }
}

impl Head {
    // The head that a word is by its kind, or none. No `TryFrom`: an error could say no more than that.
    pub fn decode(w: Word) -> Option<Head>
        ensures { result ≡ head_of w }
    {
        match w.kind {
            1 => Some(Head::Channel { label: w.c }),
            2 => Some(Head::Shape { cells: w.c }),
            3 => Some(Head::Signature {
                context: Context::from(w),
                depth: w.c % 128,
            }),
            4 => Some(Head::Tuple {
                shape: w.c,
                cells: w.b,
            }),
            5 => Some(Head::Block {
                signature: w.b,
                words: w.c,
            }),
            _ => None,
        }
    }

    pub fn section(self) -> Section
        ensures { result ≡ section_of self }
    {
        match self {
            Head::Channel { .. } => Section::Channels,
            Head::Shape { .. } => Section::Shapes,
            Head::Signature { .. } => Section::Signatures,
            Head::Tuple { .. } => Section::Tuples,
            Head::Block { .. } => Section::Blocks,
        }
    }

    // How many words of the item follow its head.
    pub fn follows(self) -> usize
        ensures { result ≡ follows self }
    {
        match self {
            Head::Channel { .. } => 0,
            Head::Shape { cells } => usize::from(cells),
            Head::Signature { depth, .. } => 8 + usize::from(depth),
            Head::Tuple { cells, .. } => usize::from(cells),
            Head::Block { words, .. } => usize::from(words),
        }
    }
}

// How the head is written: every field that it does not name is zero. A depth takes seven bits.
impl From<Head> for Word {
    ghost from_gives = { λ head w. w ≡ head_word head };

    fn from(head: Head) -> Word {
        match head {
            Head::Channel { label } => Word::new(1, 0, 0, label),
            Head::Shape { cells } => Word::new(2, 0, 0, cells),
            Head::Signature {
                context: Context::Empty,
                depth,
            } => Word::new(3, 0, 0, depth % 128),
            Head::Signature {
                context: Context::Raised {
                    label,
                    postdominator,
                },
                depth,
            } => Word::new(3, label, postdominator, 128 + depth % 128),
            Head::Tuple { shape, cells } => Word::new(4, 0, cells, shape),
            Head::Block { signature, words } => Word::new(5, 0, signature, words),
        }
    }
}
