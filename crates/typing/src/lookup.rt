#![tactic(auto, using(std::proofs::lemmas::Option::gets, std::proofs::lemmas::Grind::common_steps))]

ghost use Rattle.typing.specs.Promises.{promised};
ghost use Rattle.image.specs.declared.ty.Ty.TheVariants.{Nonsense};
ghost use Rattle.programme.specs.Lookup.{Between};
ghost use Rattle.programme.specs.Spelled.{program_in, signature_spelled};
ghost use Rattle.rules.specs.Fit.{has_cell, target};
ghost use Rattle.rules.specs.Program.{no_signature, shape_at, tuple_at, block_at, signature_at, promise};
ghost use Rattle.rules.specs.Says.{type_in};
ghost use Rattle.rules.specs.Types.{cell};
ghost use Rattle.std.specs.Prelude.{◌≡◌, map, length, slice_index, slice_index_or};

use crate::promise::Promise;
use image::head::Context;
use image::ty::{Sort, Ty};
use programme::decode::type_in;
use programme::laid_out::LaidOut;
use programme::parts::SignatureWords;

// What a number names in the programme, with a default where there is no such thing.

// The label of a channel, or 0.
pub fn channel_label(image: &LaidOut<'_>, n: u8) -> u8
    ensures { result ≡ slice_index (program_in image.now).channels n }
{
    image.channel(n).unwrap_or(0)
}

// The number of a tuple's shape, or 0.
pub fn tuple_shape(image: &LaidOut<'_>, n: u8) -> u8
    ensures { result ≡ (tuple_at (program_in image.now) n).shape }
{
    image.tuple(u32::from(n)).map_or(0, |found| found.shape)
}

// The number of a block's signature, or 0.
pub fn block_signature(image: &LaidOut<'_>, n: u8) -> u8
    ensures { result ≡ (block_at (program_in image.now) n).signature }
{
    image.block(u32::from(n)).map_or(0, |found| found.signature)
}

// How many cells a shape has, or none.
fn shape_size(image: &LaidOut<'_>, n: u8) -> usize
    ensures { result ≡ length (shape_at (program_in image.now) n) }
{
    image.shape_types(n).len()
}

// Whether t is a pointer to tuples that have a cell n.
pub fn has_cell(image: &LaidOut<'_>, t: Ty, n: u8) -> bool
    ensures { result ≡ has_cell (program_in image.now) t n }
{
    matches!(
        t,
        Ty::Typed { sort: Sort::Pointer { shape }, .. } if usize::from(n) < shape_size(image, shape)
    )
}

// The type of cell n of the tuple at a pointer, nonsense where there is none.
pub fn cell_type(image: &LaidOut<'_>, t: Ty, n: u8) -> Ty
    ensures { result ≡ cell (program_in image.now) t n }
{
    match t {
        Ty::Typed {
            sort: Sort::Pointer { shape },
            ..
        } => type_at(image.shape_types(shape), n),
        _ => Ty::Nonsense,
    }
}

// The type that the n-th of the words is, nonsense past the end.
fn type_at(words: &[u32], n: u8) -> Ty
    ensures { result ≡ slice_index_or (map type_in words.now) n Nonsense }
{
    words
        .get(usize::from(n))
        .copied()
        .map_or(Ty::Nonsense, type_in)
}

// What holds where there is no signature: nothing.
fn no_promise<'a>() -> Promise<'a>
    ensures { promised result ≡ no_signature }
{
    Promise {
        context: Context::Empty,
        registers: &[],
        slots: &[],
    }
}

// The type words of registers and of slots apart.
fn promise_of<'a>(found: SignatureWords<'a>) -> Promise<'a>
    requires { Between 8 40 (length found.types.now) }
    ensures { promised result ≡ signature_spelled found.entry }
{
    let (registers, slots) = found.types.split_at(8);
    Promise {
        context: found.context,
        registers,
        slots,
    }
}

// What a signature promises.
pub fn signature_promise<'a>(image: &LaidOut<'a>, n: u8) -> Promise<'a>
    ensures { promised result ≡ signature_at (program_in image.now) n }
{
    image.signature(n).map_or(no_promise(), promise_of)
}

// What the signature of a block promises.
pub fn block_promise<'a>(image: &LaidOut<'a>, n: u8) -> Promise<'a>
    ensures { promised result ≡ promise (program_in image.now) n }
{
    signature_promise(image, block_signature(image, n))
}

// What the signature that a code type names promises.
pub fn target_promise<'a>(image: &LaidOut<'a>, t: Ty) -> Promise<'a>
    ensures { promised result ≡ target (program_in image.now) t }
{
    match t {
        Ty::Typed {
            sort: Sort::Code { signature },
            ..
        } => signature_promise(image, signature),
        _ => signature_promise(image, 0),
    }
}
