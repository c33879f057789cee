// Heads, contexts, types and instructions in words.
use crate::nouns::Several;
use image::head::{Context, Head};
use image::instruction::Instruction;
use image::ty::{Sort, Ty};
use std::fmt;

#[derive(Clone, Copy)]
pub struct ContextText(pub Context);

impl fmt::Display for ContextText {
    fn fmt<W: fmt::Write>(&self, f: &mut fmt::Formatter<W>) -> fmt::Result {
        match self.0 {
            Context::Empty => write!(f, "empty context"),
            Context::Raised {
                label,
                postdominator,
            } => {
                write!(
                    f,
                    "context raised to label {label} until block {postdominator}"
                )
            }
        }
    }
}

#[derive(Clone, Copy)]
pub struct HeadText(pub Head);

impl fmt::Display for HeadText {
    fn fmt<W: fmt::Write>(&self, f: &mut fmt::Formatter<W>) -> fmt::Result {
        match self.0 {
            Head::Channel { label } => write!(f, "label {label}"),
            Head::Shape { cells } => write!(f, "{}", Several(usize::from(cells), "cell")),
            Head::Signature { context, depth } => {
                write!(f, "{}, stack depth {depth}", ContextText(context))
            }
            Head::Tuple { shape, cells } => {
                write!(
                    f,
                    "of shape {shape}, {}",
                    Several(usize::from(cells), "cell")
                )
            }
            Head::Block { signature, words } => {
                write!(
                    f,
                    "of signature {signature}, {}",
                    Several(usize::from(words), "word")
                )
            }
        }
    }
}

#[derive(Clone, Copy)]
pub struct TypeText(pub Ty);

impl fmt::Display for TypeText {
    fn fmt<W: fmt::Write>(&self, f: &mut fmt::Formatter<W>) -> fmt::Result {
        match self.0 {
            Ty::Nonsense => write!(f, "nonsense"),
            Ty::Typed { sort, label } => match sort {
                Sort::Integer => write!(f, "integer, label {label}"),
                Sort::Pointer { shape } => write!(f, "pointer to shape {shape}, label {label}"),
                Sort::Code { signature } => {
                    write!(f, "code of signature {signature}, label {label}")
                }
            },
        }
    }
}

// An instruction by its name and its operands; `r3` is register 3.
#[derive(Clone, Copy)]
pub struct InstructionText(pub Instruction);

impl fmt::Display for InstructionText {
    fn fmt<W: fmt::Write>(&self, f: &mut fmt::Formatter<W>) -> fmt::Result {
        use Instruction::*;
        match self.0 {
            SetNumber { to, value } => write!(f, "number    r{to} becomes {value}"),
            SetTuple { to, tuple } => write!(f, "tuple     r{to} becomes tuple {tuple}"),
            SetBlock { to, block } => write!(f, "block     r{to} becomes block {block}"),
            Copy { to, from } => write!(f, "copy      r{to} becomes r{from}"),
            Add { to, left, right } => write!(f, "add       r{to} becomes r{left} + r{right}"),
            Subtract { to, left, right } => write!(f, "subtract  r{to} becomes r{left} - r{right}"),
            Fetch { to, pointer, cell } => write!(
                f,
                "fetch     r{to} becomes cell {cell} of the tuple at r{pointer}"
            ),
            Store {
                pointer,
                from,
                cell,
            } => write!(
                f,
                "store     cell {cell} of the tuple at r{pointer} becomes r{from}"
            ),
            Push { count } => write!(f, "push      {}", Several(usize::from(count), "zero slot")),
            Pop { count } => write!(f, "pop       {}", Several(usize::from(count), "slot")),
            Peek { to, slot } => write!(f, "peek      r{to} becomes slot {slot}"),
            Poke { from, slot } => write!(f, "poke      slot {slot} becomes r{from}"),
            Strike { channel, from } => write!(f, "strike    r{from} on channel {channel}"),
            Branch { test, target } => write!(
                f,
                "branch    to the block in r{target} if r{test} is not 0"
            ),
            Raise {
                label,
                postdominator,
            } => write!(f, "raise     to label {label} until block {postdominator}"),
            Jump { target } => write!(f, "jump      to the block in r{target}"),
            Lower { block } => write!(f, "lower     to block {block}"),
            Halt => write!(f, "halt"),
        }
    }
}
