// Names of sections and counted things.
use image::section::Section;
use std::fmt;

// What one item of a section is called.
#[derive(Clone, Copy)]
pub struct Noun(pub Section);

impl fmt::Display for Noun {
    fn fmt<W: fmt::Write>(&self, f: &mut fmt::Formatter<W>) -> fmt::Result {
        match self.0 {
            Section::Channels => write!(f, "channel"),
            Section::Shapes => write!(f, "shape"),
            Section::Signatures => write!(f, "signature"),
            Section::Tuples => write!(f, "tuple"),
            Section::Blocks => write!(f, "block"),
        }
    }
}

// So many things of a name: `1 cell`, `2 cells`.
#[derive(Clone, Copy)]
pub struct Several(pub usize, pub &'static str);

impl fmt::Display for Several {
    fn fmt<W: fmt::Write>(&self, f: &mut fmt::Formatter<W>) -> fmt::Result {
        let Several(n, name) = *self;
        let ending = if n == 1 { "" } else { "s" };
        write!(f, "{n} {name}{ending}")
    }
}
