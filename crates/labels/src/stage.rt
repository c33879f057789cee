ghost use Rattle.labels.specs.Stages.{stages};
ghost use Rattle.std.proofs.Common.{rules};

use crate::kind::LabelKind;

// 16 labels, ordered as numbers.
#[derive(Clone, Copy)]
pub struct Stage;

impl LabelKind for Stage {
    ghost meaning = { λ _. stages };

    ghost lawful = { Prim.search rules };

    fn count(&self) -> u16 {
        16
    }

    fn at_or_below(&self, a: u8, b: u8) -> bool {
        a < 16 && b < 16 && a <= b
    }

    fn join(&self, a: u8, b: u8) -> u8 {
        if a < 16 && b < 16 { a.max(b) } else { 0 }
    }
}
