ghost use Rattle.labels.specs.Mastheads.{mastheads};
ghost use Rattle.labels.specs.Unions.{mastheads_lawful};

use crate::kind::LabelKind;

// 16 labels, each a set of four members, a bit for each; ordered by inclusion.
#[derive(Clone, Copy)]
pub struct MastheadSet;

impl LabelKind for MastheadSet {
    ghost meaning = { λ _. mastheads };

    ghost lawful = { λ k. mastheads_lawful };

    fn count(&self) -> u16 {
        16
    }

    fn at_or_below(&self, a: u8, b: u8) -> bool {
        a < 16 && b < 16 && (a | b) == b
    }

    fn join(&self, a: u8, b: u8) -> u8 {
        if a < 16 && b < 16 { a | b } else { 0 }
    }
}
