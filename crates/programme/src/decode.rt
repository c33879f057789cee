ghost use Rattle.rules.specs.Says.{type_in, instruction_in};
ghost use Rattle.std.specs.Prelude.{◌≡◌};

use image::instruction::Instruction;
use image::ty::Ty;
use image::word::Word;

// The type that a word says. One that says none stands in no item.
pub fn type_in(raw: u32) -> Ty
    ensures { result ≡ type_in raw }
{
    Ty::decode(Word::from(raw)).unwrap_or(Ty::Nonsense)
}

// The instruction that a word says, as the last of its block or as another. One that says none stands in no item.
pub fn instruction_in(last: bool, raw: u32) -> Instruction
    ensures { result ≡ instruction_in last raw }
{
    // not by `unwrap_or`, which takes both in memory: a run decodes each of its words here
    match Instruction::decode(last, Word::from(raw)) {
        Some(instruction) => instruction,
        None => Instruction::Halt,
    }
}
