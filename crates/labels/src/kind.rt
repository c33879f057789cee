ghost use Rattle.labels.specs.Meaning.{Meaning, Lawful};
ghost use Rattle.std.specs.Prelude.{◌≡◌};

// A kind of labels. `meaning` says what a kind answers to every question; `lawful` says which answers a kind may give.
// A code that is no label may be asked about: it is at or below nothing, and its join is 0.
pub trait LabelKind {
    ghost meaning: { Self → Meaning };

    // How many labels there are: the codes below this number.
    fn count(&self) -> u16
        ensures { result ≡ (meaning self.now).count };

    // Whether the label a is at or below the label b.
    fn at_or_below(&self, a: u8, b: u8) -> bool
        ensures { result ≡ (meaning self.now).below a b };

    // The lowest label that is at or above both.
    fn join(&self, a: u8, b: u8) -> u8
        ensures { result ≡ (meaning self.now).joined a b };

    ghost lawful: { (k : Self) → Lawful (meaning k) };
}
