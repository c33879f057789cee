ghost use Rattle.image.specs.Words.{split};
ghost use Rattle.machine.specs.Cells.{job_labels};
ghost use Rattle.programme.specs.Spelled.{program_in};
ghost use Rattle.rules.specs.Program.{shape_at, cell_types};
ghost use Rattle.rules.specs.Says.{type_in};
ghost use Rattle.rules.specs.Types.{label_of};
ghost use Rattle.std.specs.Prelude.{◌≡◌, map, slice_index, IfOk};

use crate::words::word_at;
use image::item::{Item, Part};
use image::items::Items;
use image::ty::Ty;
use image::word::Word;
use programme::decode::type_in;
use programme::laid_out::LaidOut;
use rules::types::{is_integer, label_of};
use std::alloc::{AllocError, Global};

// The labels of the cells that a job fills, one for each word of a job.
#[tactic(auto, using(crate::proofs::Filtering::filled))]
pub fn job_labels(heap: Global, image: LaidOut<'_>) -> Result<Vec<u8>, AllocError>
    ensures { IfOk result (λ v. v.items ≡ job_labels (program_in image.entry)) }
{
    let types = cell_types(heap, image)?;
    types
        .iter()
        .copied()
        .filter(|ty| is_integer(*ty))
        .map(label_of)
        .collect(heap)
}

// The labels of all cells.
pub fn cell_labels(heap: Global, image: LaidOut<'_>) -> Result<Vec<u8>, AllocError>
    ensures { IfOk result (λ v. v.items ≡ map label_of (cell_types (program_in image.entry))) }
{
    let types = cell_types(heap, image)?;
    types.iter().copied().map(label_of).collect(heap)
}

// The types of all cells, tuple by tuple.
fn cell_types(heap: Global, image: LaidOut<'_>) -> Result<Vec<Ty>, AllocError>
    ensures { IfOk result (λ v. v.items ≡ cell_types (program_in image.entry)) }
{
    let mut types = Vec::new(heap);
    for item in Items::of(image.words()) {
        let Item::Tuple(part) = item else {
            continue;
        };
        types.extend(types_of(image, part).iter().copied().map(type_in))?;
    }
    Ok(types)
}

// The words of the types of a tuple's cells, by its head. Of a shape that the programme lacks there are none.
fn types_of<'a>(image: LaidOut<'a>, tuple: Part<'_>) -> &'a [u32]
    ensures { map type_in result.now ≡ shape_at (program_in image.entry) (split (slice_index tuple.entry.words.now 0)).c }
{
    let head = Word::from(word_at(tuple.words, 0));
    image.shape_types(head.c)
}
