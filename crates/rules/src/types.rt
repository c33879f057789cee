ghost use Rattle.image.specs.declared.ty.Sort.TheVariants.{Integer, Pointer, Code};
ghost use Rattle.image.specs.declared.ty.Ty.TheVariants.{Typed};
ghost use Rattle.rules.specs.Fit.{same_sort, is_integer, is_pointer, is_code, alike, same_context, is_empty, raised_to, fit_sort, fit_label};
ghost use Rattle.rules.specs.Types.{level, label_of, over};
ghost use Rattle.std.specs.Prelude.{◌≡◌};

use image::head::Context;
use image::ty::{Sort, Ty};
use labels::LabelKind;

pub fn integer(label: u8) -> Ty
    ensures { result ≡ Typed Integer label }
{
    let sort = Sort::Integer;
    Ty::Typed { sort, label }
}

pub fn pointer(shape: u8, label: u8) -> Ty
    ensures { result ≡ Typed (Pointer shape) label }
{
    Ty::Typed {
        sort: Sort::Pointer { shape },
        label,
    }
}

pub fn code(signature: u8, label: u8) -> Ty
    ensures { result ≡ Typed (Code signature) label }
{
    Ty::Typed {
        sort: Sort::Code { signature },
        label,
    }
}

pub fn same_sort(one: Sort, other: Sort) -> bool
    ensures { result ≡ same_sort one other }
{
    one == other
}

pub fn is_integer(t: Ty) -> bool
    ensures { result ≡ is_integer t }
{
    matches!(
        t,
        Ty::Typed {
            sort: Sort::Integer,
            ..
        }
    )
}

pub fn is_pointer(t: Ty) -> bool
    ensures { result ≡ is_pointer t }
{
    matches!(
        t,
        Ty::Typed {
            sort: Sort::Pointer { .. },
            ..
        }
    )
}

pub fn is_code(t: Ty) -> bool
    ensures { result ≡ is_code t }
{
    matches!(
        t,
        Ty::Typed {
            sort: Sort::Code { .. },
            ..
        }
    )
}

// Neither is nonsense, and both have one sort and number.
pub fn alike(one: Ty, other: Ty) -> bool
    ensures { result ≡ alike one other }
{
    match (one, other) {
        (Ty::Typed { sort: s, .. }, Ty::Typed { sort: o, .. }) => same_sort(s, o),
        _ => false,
    }
}

// The label of a type, 0 for nonsense.
pub fn label_of(t: Ty) -> u8
    ensures { result ≡ label_of t }
{
    match t {
        Ty::Nonsense => 0,
        Ty::Typed { label, .. } => label,
    }
}

// A type taken over, with a label joined into its own; nonsense stays nonsense.
pub fn over<K: LabelKind>(kind: &K, l: u8, t: Ty) -> Ty
    ensures { result ≡ over (K.LabelKind.meaning kind.now) l t }
{
    match t {
        Ty::Nonsense => Ty::Nonsense,
        Ty::Typed { sort, label } => Ty::Typed {
            sort,
            label: kind.join(l, label),
        },
    }
}

// A label with those of two types joined in.
pub fn joined_label<K: LabelKind>(kind: &K, l: u8, t: Ty, u: Ty) -> u8
    ensures { result ≡ (K.LabelKind.meaning kind.now).joined ((K.LabelKind.meaning kind.now).joined l (label_of t)) (label_of u) }
{
    kind.join(kind.join(l, label_of(t)), label_of(u))
}

// The label of a context, 0 for the empty one.
pub fn level(k: Context) -> u8
    ensures { result ≡ level k }
{
    match k {
        Context::Empty => 0,
        Context::Raised { label, .. } => label,
    }
}

pub fn same_context(here: Context, there: Context) -> bool
    ensures { result ≡ same_context here there }
{
    here == there
}

pub fn is_empty(k: Context) -> bool
    ensures { result ≡ is_empty k }
{
    k == Context::Empty
}

// Raised with this postdominator.
pub fn raised_to(block: u8, k: Context) -> bool
    ensures { result ≡ raised_to block k }
{
    matches!(k, Context::Raised { postdominator, .. } if postdominator == block)
}

// By sort and number: nonsense is wanted, or both have one sort and number.
pub fn fit_sort(have: Ty, want: Ty) -> bool
    ensures { result ≡ fit_sort have want }
{
    want.is_nonsense() || alike(have, want)
}

// By label, where sort and number agree: what is there is at or below what is wanted.
pub fn fit_label<K: LabelKind>(kind: &K, have: Ty, want: Ty) -> bool
    ensures { result ≡ fit_label (K.LabelKind.meaning kind.now) have want }
{
    match (have, want) {
        (Ty::Typed { sort: o, label: l }, Ty::Typed { sort: s, label: k }) => {
            !same_sort(o, s) || kind.at_or_below(l, k)
        }
        _ => true,
    }
}
