ghost use Rattle.typing.specs.Promises.{promised};
ghost use Rattle.typing.specs.States.{known};
ghost use Rattle.image.specs.declared.ty.Ty.{Ty};
ghost use Rattle.image.specs.declared.ty.Ty.TheVariants.{Nonsense};
ghost use Rattle.rules.specs.Fit.{pairwise, fit_sort, fit_label, same_depth, fit_sorts, fit_labels};
ghost use Rattle.rules.specs.Says.{type_in};
ghost use Rattle.std.specs.Prelude.{◌≡◌, Bool, map, slice_index_or};

use crate::promise::Promise;
use crate::state::State;
use image::ty::Ty;
use labels::LabelKind;
use programme::decode::type_in;
use rules::types::{fit_label, fit_sort};

// What is there at i, nonsense past the end.
fn at(have: &[Ty], i: usize) -> Ty
    ensures { result ≡ slice_index_or have.now i Nonsense }
{
    have.get(i).copied().unwrap_or(Ty::Nonsense)
}

// Whether types fit one by one, by a test of what is there and what is wanted.
fn each_fits<F: Fn(Ty, Ty) -> bool>(have: &[Ty], want: &[u32], fits: F) -> bool
    requires { F.IsAlwaysCallable fits }
    ensures { (test : Ty → Ty → Bool) → ((t u : Ty) (r : Bool) → F.post fits t u r → r ≡ test t u) → result ≡ pairwise test have.now (map type_in want.now) }
{
    want.iter()
        .enumerate()
        .all(|(i, word)| fits(at(have, i), type_in(*word)))
}

// Whether what is known fits what is promised where control goes.
impl State {
    pub fn same_depth(&self, want: &Promise<'_>) -> bool
        ensures { result ≡ same_depth (known self.now).types (promised want.now).types }
    {
        self.depth() == want.slots.len()
    }

    // By sort and number: registers, then slots.
    pub fn sorts_fit(&self, want: &Promise<'_>) -> bool
        ensures { result ≡ fit_sorts (known self.now).types (promised want.now).types }
    {
        each_fits(self.registers(), want.registers, fit_sort)
            && each_fits(self.slots(), want.slots, fit_sort)
    }

    // By label: registers, then slots, which are compared only at equal depth.
    pub fn labels_fit<K: LabelKind>(&self, kind: &K, want: &Promise<'_>) -> bool
        ensures { result ≡ fit_labels (K.LabelKind.meaning kind.now) (known self.now).types (promised want.now).types }
    {
        let fits = |there, wanted| fit_label(kind, there, wanted);
        each_fits(self.registers(), want.registers, &fits)
            && (!self.same_depth(want) || each_fits(self.slots(), want.slots, &fits))
    }
}
