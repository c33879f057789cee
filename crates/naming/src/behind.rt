ghost use Rattle.image.specs.Faults.{answered};
ghost use Rattle.programme.specs.Spelled.{program_in};
ghost use Rattle.rules.specs.Naming.{types_named, plains_named, instructions_named};
ghost use Rattle.rules.specs.Says.{type_in, body_of};
ghost use Rattle.std.specs.Prelude.{◌≡◌, ◌+◌, map, length, suc};

use crate::fault::NamingFault;
use crate::headed::Headed;
use crate::names::Names;
use image::fault::Fault;
use labels::LabelKind;
use programme::decode::{instruction_in, type_in};

// The words behind a head: the first fault among them.
impl<K: LabelKind> Names<'_, K> {
    // The type words of a shape or a signature.
    pub fn types_fault(&self, part: Headed<'_>) -> Result<(), NamingFault>
        ensures { answered result ≡ types_named (K.LabelKind.meaning self.now.kind.now) (program_in self.now.image) (suc part.entry.place) (map type_in part.entry.behind.now) }
    {
        part.behind.iter().enumerate().try_for_each(|(i, raw)| {
            Fault::at(part.place + 1 + i, self.type_fault(type_in(*raw)))
        })
    }

    // The plain words of a tuple, by the type words of its shape.
    pub fn plains_fault(&self, part: Headed<'_>, types: &[u32]) -> Result<(), NamingFault>
        requires { length part.behind.now ≡ length types.now }
        ensures { answered result ≡ plains_named (K.LabelKind.meaning self.now.kind.now) (program_in self.now.image) (map type_in types.now) (suc part.entry.place) part.entry.behind.now }
    {
        let cells = types.iter().zip(part.behind);
        cells.enumerate().try_for_each(|(i, (ty, raw))| {
            Fault::at(part.place + 1 + i, self.plain_fault(type_in(*ty), *raw))
        })
    }

    // The instruction words of a block.
    pub fn instructions_fault(&self, part: Headed<'_>) -> Result<(), NamingFault>
        ensures { answered result ≡ instructions_named (K.LabelKind.meaning self.now.kind.now) (program_in self.now.image) (suc part.entry.place) (body_of part.entry.behind.now) }
    {
        part.behind.iter().enumerate().try_for_each(|(i, raw)| {
            let last = i + 1 == part.behind.len();
            Fault::at(
                part.place + 1 + i,
                self.instruction_fault(instruction_in(last, *raw)),
            )
        })
    }
}
