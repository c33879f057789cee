ghost use Rattle.std.specs.Prelude.{◌≡◌, ◌/◌, ◌%◌};
ghost use Rattle.labels.specs.Meaning.{both_below};
ghost use Rattle.labels.specs.Pairs.{pair};
ghost use Rattle.labels.specs.Parts.{pair_lawful};

use crate::kind::LabelKind;

// The pair of two kinds, which may be pairs too.
#[derive(Clone, Copy, Drop)]
pub struct Pair<A, B> {
    first: A,
    second: B,
}

impl<A, B> Pair<A, B> {
    pub fn new(first: A, second: B) -> Pair<A, B>
        ensures first { result.first ≡ first }
        ensures second { result.second ≡ second }
    {
        Pair { first, second }
    }
}

impl<A: LabelKind, B: LabelKind> Pair<A, B> {
    // Whether both codes are labels of the pair. The test is of the whole codes: a code outside may have parts that are labels.
    fn are_labels(&self, a: u8, b: u8) -> bool
        ensures { result ≡ both_below (pair (A.LabelKind.meaning self.now.first) (B.LabelKind.meaning self.now.second)).count a b }
    {
        let n = self.count();
        u16::from(a) < n && u16::from(b) < n
    }

    // The codes of the two parts.
    fn parts(&self, code: u8) -> (u8, u8)
        ensures first { result.0 ≡ code / (B.LabelKind.meaning self.now.second).count }
        ensures second { result.1 ≡ code % (B.LabelKind.meaning self.now.second).count }
    {
        let n = self.second.count();
        let code = u16::from(code);
        ((code / n) as u8, (code % n) as u8)
    }
}

impl<A: LabelKind, B: LabelKind> LabelKind for Pair<A, B> {
    ghost meaning = { λ k. pair (A.LabelKind.meaning k.first) (B.LabelKind.meaning k.second) };

    ghost lawful = { λ k.
        pair_lawful (A.LabelKind.meaning k.first) (B.LabelKind.meaning k.second)
        (A.LabelKind.lawful k.first) (B.LabelKind.lawful k.second) };

    fn count(&self) -> u16 {
        let product = u32::from(self.first.count()) * u32::from(self.second.count());
        if product <= 256 { product as u16 } else { 1 }
    }

    // A pair of one label needs no test of its own, here or in `join`: the parts of its label are 0 and 0.
    fn at_or_below(&self, a: u8, b: u8) -> bool {
        if !self.are_labels(a, b) {
            return false;
        }
        let (a_first, a_second) = self.parts(a);
        let (b_first, b_second) = self.parts(b);
        self.first.at_or_below(a_first, b_first) && self.second.at_or_below(a_second, b_second)
    }

    fn join(&self, a: u8, b: u8) -> u8 {
        if !self.are_labels(a, b) {
            return 0;
        }
        let (a_first, a_second) = self.parts(a);
        let (b_first, b_second) = self.parts(b);
        let first = self.first.join(a_first, b_first);
        let second = self.second.join(a_second, b_second);
        let n = self.second.count();
        (u16::from(first) * n + u16::from(second)) as u8
    }
}
