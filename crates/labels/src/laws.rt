ghost use Rattle.labels.specs.Laws.{Flat, FlatHasOneLabel, OrderFixesJoin, OverLargeIsLone, SameOrder, WorkedPair};
ghost use Rattle.std.specs.Prelude.{◌≡◌, true, false, Decides, ◌==◌};

use crate::kind::LabelKind;
use crate::masthead::MastheadSet;
use crate::pair::Pair;
use crate::stage::Stage;

// Whether every label is at or below every other. Only a kind of one label is so, hence the count alone tells.
pub fn is_flat<K: LabelKind>(kind: &K) -> bool
    ensures value { result ≡ ((K.LabelKind.meaning kind.now).count == 1) }
    ensures means { Decides result (Flat (K.LabelKind.meaning kind.now)) }
    ensures theorem { FlatHasOneLabel }
{
    kind.count() == 1
}

// Whether two kinds give two codes the same join. Kinds with as many labels in the same order always do.
pub fn same_join<K: LabelKind, L: LabelKind>(one: &K, other: &L, a: u8, b: u8) -> bool
    ensures value { result ≡ ((K.LabelKind.meaning one.now).joined a b == (L.LabelKind.meaning other.now).joined a b) }
    ensures means { SameOrder (K.LabelKind.meaning one.now) (L.LabelKind.meaning other.now) → result ≡ true }
    ensures theorem { OrderFixesJoin }
{
    one.join(a, b) == other.join(a, b)
}

// The stages with the masthead sets, at the codes 0x31, stage 3 with the set 1, and 0x24, stage 2 with the set 4: whether
// the first is at or below the second, whether the second is at or below the first, and their join, stage 3 with the set 5.
pub fn worked_pair() -> (bool, bool, u8)
    ensures value { result ≡ (false, false, 0x35) }
    ensures theorem { WorkedPair }
{
    let kind = Pair::new(Stage, MastheadSet);
    (
        kind.at_or_below(0x31, 0x24),
        kind.at_or_below(0x24, 0x31),
        kind.join(0x31, 0x24),
    )
}

// The counts of three pairs: of the 256 codes that still fit, of those with the stages, which are too many, and of that
// over-large pair with the stages again.
pub fn pair_counts() -> (u16, u16, u16)
    ensures value { result ≡ (256, 1, 16) }
    ensures theorem { OverLargeIsLone }
{
    let full = Pair::new(Stage, MastheadSet);
    let over = Pair::new(full, Stage);
    let further = Pair::new(over, Stage);
    (full.count(), over.count(), further.count())
}
