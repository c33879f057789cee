ghost use Rattle.image.specs.Finding.{broken};
ghost use Rattle.programme.specs.Spelled.{program_in};
ghost use Rattle.rules.specs.Naming.{type_named, context_named, plain_named, instruction_named};
ghost use Rattle.rules.specs.Program.{tuple_at, block_at};
ghost use Rattle.std.specs.List.{list_all};
ghost use Rattle.std.specs.Prelude.{◌≡◌, [], ◌∷◌, length, ◌==◌, nat_lt};
ghost use Rattle.std.specs.Result.{result_err};

use crate::names::{Names, are_registers};
use image::fault::ask;
use image::head::Context;
use image::instruction::Instruction;
use image::section::Section;
use image::ty::{Sort, Ty};
use labels::LabelKind;
use rules::rule::NamingRule;

impl<K: LabelKind> Names<'_, K> {
    pub fn type_fault(&self, t: Ty) -> Result<(), NamingRule>
        ensures { result_err result ≡ broken (type_named (K.LabelKind.meaning self.now.kind.now) (program_in self.now.image) t) }
    {
        let Ty::Typed { sort, label } = t else {
            return Ok(());
        };
        match sort {
            Sort::Integer => {}
            Sort::Pointer { shape } => self.part_fault(Section::Shapes, shape)?,
            Sort::Code { signature } => self.part_fault(Section::Signatures, signature)?,
        }
        ask(self.is_label(label), NamingRule::NotALabel)
    }

    pub fn context_fault(&self, context: Context) -> Result<(), NamingRule>
        ensures { result_err result ≡ broken (context_named (K.LabelKind.meaning self.now.kind.now) (program_in self.now.image) context) }
    {
        match context {
            Context::Empty => Ok(()),
            Context::Raised {
                label,
                postdominator,
            } => {
                self.part_fault(Section::Blocks, postdominator)?;
                ask(self.is_label(label), NamingRule::NotALabel)
            }
        }
    }

    // The plain word of a pointer cell: a tuple of the shape.
    fn pointer_fault(&self, shape: u8, n: u32) -> Result<(), NamingRule>
        ensures { result_err result ≡ broken ((NamingRule.NoSuchTuple, nat_lt n (length (program_in self.now.image).tuples)) ∷ (NamingRule.WrongPlainWord, ((tuple_at (program_in self.now.image) n).shape == shape)) ∷ []) }
    {
        let tuple = self.image.tuple(n).ok_or(NamingRule::NoSuchTuple)?;
        ask(tuple.shape == shape, NamingRule::WrongPlainWord)
    }

    // The plain word of a code cell: a block of the signature.
    fn code_fault(&self, signature: u8, n: u32) -> Result<(), NamingRule>
        ensures { result_err result ≡ broken ((NamingRule.NoSuchBlock, nat_lt n (length (program_in self.now.image).blocks)) ∷ (NamingRule.WrongPlainWord, ((block_at (program_in self.now.image) n).signature == signature)) ∷ []) }
    {
        let block = self.image.block(n).ok_or(NamingRule::NoSuchBlock)?;
        ask(block.signature == signature, NamingRule::WrongPlainWord)
    }

    // The plain word of a cell of a type.
    pub fn plain_fault(&self, t: Ty, n: u32) -> Result<(), NamingRule>
        ensures { result_err result ≡ broken (plain_named (K.LabelKind.meaning self.now.kind.now) (program_in self.now.image) t n) }
    {
        let Ty::Typed { sort, .. } = t else {
            return Ok(());
        };
        match sort {
            Sort::Integer => ask(n == 0, NamingRule::WrongPlainWord),
            Sort::Pointer { shape } => self.pointer_fault(shape, n),
            Sort::Code { signature } => self.code_fault(signature, n),
        }
    }

    pub fn instruction_fault(&self, i: Instruction) -> Result<(), NamingRule>
        ensures { result_err result ≡ broken (instruction_named (K.LabelKind.meaning self.now.kind.now) (program_in self.now.image) i) }
    {
        match i {
            Instruction::SetNumber { to, .. } | Instruction::Peek { to, .. } => {
                registers_fault(&[to])
            }
            Instruction::SetTuple { to, tuple } => {
                registers_fault(&[to])?;
                self.part_fault(Section::Tuples, tuple)
            }
            Instruction::SetBlock { to, block } => {
                registers_fault(&[to])?;
                self.part_fault(Section::Blocks, block)
            }
            Instruction::Copy { to, from } => registers_fault(&[to, from]),
            Instruction::Add { to, left, right } | Instruction::Subtract { to, left, right } => {
                registers_fault(&[to, left, right])
            }
            Instruction::Fetch { to, pointer, .. } => registers_fault(&[to, pointer]),
            Instruction::Store { pointer, from, .. } => registers_fault(&[pointer, from]),
            Instruction::Poke { from, .. } => registers_fault(&[from]),
            Instruction::Strike { channel, from } => {
                self.part_fault(Section::Channels, channel)?;
                registers_fault(&[from])
            }
            Instruction::Branch { test, target } => registers_fault(&[test, target]),
            Instruction::Raise {
                label,
                postdominator,
            } => self.context_fault(Context::Raised {
                label,
                postdominator,
            }),
            Instruction::Jump { target } => registers_fault(&[target]),
            Instruction::Lower { block } => self.part_fault(Section::Blocks, block),
            Instruction::Push { .. } | Instruction::Pop { .. } | Instruction::Halt => Ok(()),
        }
    }
}

fn registers_fault(registers: &[u8]) -> Result<(), NamingRule>
    ensures { result_err result ≡ broken ((NamingRule.NoSuchRegister, list_all (λ n. nat_lt n 8) registers.now) ∷ []) }
{
    ask(are_registers(registers), NamingRule::NoSuchRegister)
}
