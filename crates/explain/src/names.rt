// Refusals by the naming pass.
use image::head::{Context, Head};
use image::instruction::Instruction;
use image::item::Part;
use image::items::Items;
use image::section::Section;
use image::ty::{Sort, Ty};
use image::word::Word;
use naming::fault::NamingFault;
use programme::decode::type_in;
use programme::laid_out::LaidOut;
use programme::parts::SignatureWords;
use rules::rule::NamingRule;
use rules::types::{is_code, is_pointer};
use std::fmt;
use wording::{Noun, TypeText};

// A refusal by the naming pass: the image, its first fault, and how many labels the kind has.
#[derive(Clone, Copy)]
pub struct NamingRefusal<'a> {
    pub image: LaidOut<'a>,
    pub fault: NamingFault,
    pub labels: u16,
}

impl fmt::Display for NamingRefusal<'_> {
    fn fmt<W: fmt::Write>(&self, f: &mut fmt::Formatter<W>) -> fmt::Result {
        let place = self.fault.place;
        let number = self.fault.rule.number();
        let raw = self.raw();
        write!(f, "refused {number} at word {place}, naming: {raw:08X} ")?;
        match self.fault.rule {
            NamingRule::NoSuchRegister => self.no_register(f),
            NamingRule::NotALabel => self.no_label(f),
            NamingRule::BadStart => self.bad_start(f),
            NamingRule::WrongCellCount => self.wrong_count(f),
            NamingRule::WrongPlainWord => self.wrong_plain(f),
            NamingRule::NoSuchChannel => self.missing(Section::Channels, f),
            NamingRule::NoSuchShape => self.missing(Section::Shapes, f),
            NamingRule::NoSuchSignature => self.missing(Section::Signatures, f),
            NamingRule::NoSuchTuple => self.missing(Section::Tuples, f),
            NamingRule::NoSuchBlock => self.missing(Section::Blocks, f),
        }
    }
}

impl NamingRefusal<'_> {
    // The word at the fault, 0 past the end.
    fn raw(&self) -> u32 {
        self.image
            .words()
            .get(self.fault.place)
            .copied()
            .unwrap_or(0)
    }

    fn word(&self) -> Word {
        Word::from(self.raw())
    }

    // What the word at the fault is in its item.
    fn spot(&self) -> Option<Spot> {
        let place = self.fault.place;
        Items::of(self.image.words()).find_map(|item| {
            let part = item.part();
            spot_in(item.section(), part, place.checked_sub(part.place)?)
        })
    }

    fn no_register<W: fmt::Write>(&self, f: &mut fmt::Formatter<W>) -> fmt::Result {
        match self.missing_register() {
            Some(r) => write!(
                f,
                "names register {r}, and there are eight, numbered 0 to 7"
            ),
            None => write!(f, "names a register that is not there"),
        }
    }

    // The first register operand that is no register.
    fn missing_register(&self) -> Option<u8> {
        let Some(Spot::Instruction(i)) = self.spot() else {
            return None;
        };
        registers_in(i).into_iter().flatten().find(|r| *r >= 8)
    }

    fn no_label<W: fmt::Write>(&self, f: &mut fmt::Formatter<W>) -> fmt::Result {
        let code = self.label_code();
        let labels = self.labels;
        let last = labels.saturating_sub(1);
        write!(
            f,
            "has {code} for a label, and the kind has {labels}, numbered 0 to {last}"
        )
    }

    // The code that stands for a label in the word.
    fn label_code(&self) -> u8 {
        let word = self.word();
        match self.spot() {
            Some(Spot::Head(Head::Signature { .. }) | Spot::Instruction(_)) => word.a,
            _ => word.c,
        }
    }

    fn missing<W: fmt::Write>(&self, section: Section, f: &mut fmt::Formatter<W>) -> fmt::Result {
        let number = self.named_number();
        let there = self.image.count(section);
        write!(f, "names {} {number}, ", Noun(section))?;
        if there == 0 {
            write!(f, "and the image has no {}", Noun(section))
        } else {
            let last = there - 1;
            write!(f, "and the last {} of the image is {last}", Noun(section))
        }
    }

    // The number of the channel, shape, signature, tuple or block that the word names.
    fn named_number(&self) -> u32 {
        match self.spot() {
            Some(Spot::Head(Head::Tuple { shape, .. })) => u32::from(shape),
            Some(Spot::Head(Head::Block { signature, .. })) => u32::from(signature),
            Some(
                Spot::Head(
                    Head::Signature {
                        context: Context::Raised { postdominator, .. },
                        ..
                    },
                ),
            ) => u32::from(postdominator),
            Some(Spot::Type) => u32::from(self.word().a),
            Some(Spot::Instruction(i)) => named_by(i).map_or(0, u32::from),
            _ => self.raw(),
        }
    }

    fn bad_start<W: fmt::Write>(&self, f: &mut fmt::Formatter<W>) -> fmt::Result {
        let number = self.word().b;
        write!(
            f,
            "is the head of block 0, where a run starts, and its signature {number} "
        )?;
        match self.image.signature(number) {
            Some(s) => not_fresh(s, f),
            None => write!(f, "is not there"),
        }
    }

    fn wrong_count<W: fmt::Write>(&self, f: &mut fmt::Formatter<W>) -> fmt::Result {
        let word = self.word();
        let cells = self.image.shape_types(word.c).len();
        write!(
            f,
            "is the head of a tuple with {} cells, and its shape {} has {cells}",
            word.b, word.c
        )
    }

    fn wrong_plain<W: fmt::Write>(&self, f: &mut fmt::Formatter<W>) -> fmt::Result {
        let raw = self.raw();
        let Some((cell, t)) = self.cell_type() else {
            return write!(f, "may not stand in this cell");
        };
        write!(f, "stands in cell {cell}, {}, and ", TypeText(t))?;
        match t {
            Ty::Typed {
                sort: Sort::Pointer { .. },
                ..
            } => match self.image.tuple(raw) {
                Some(tuple) => write!(f, "tuple {raw} is of shape {}", tuple.shape),
                None => write!(f, "there is no tuple {raw}"),
            },
            Ty::Typed {
                sort: Sort::Code { .. },
                ..
            } => match self.image.block(raw) {
                Some(block) => write!(f, "block {raw} is of signature {}", block.signature),
                None => write!(f, "there is no block {raw}"),
            },
            _ => write!(f, "the job fills it: it must be 00000000"),
        }
    }

    // The cell of a plain word, with its type.
    fn cell_type(&self) -> Option<(usize, Ty)> {
        let Some(Spot::Plain { shape, cell }) = self.spot() else {
            return None;
        };
        let raw = *self.image.shape_types(shape).get(cell)?;
        Some((cell, Ty::decode(Word::from(raw))?))
    }
}

// Why a run cannot start in a signature: it begins in an empty context, with an empty stack and no address in a register.
fn not_fresh<W: fmt::Write>(s: SignatureWords<'_>, f: &mut fmt::Formatter<W>) -> fmt::Result {
    if let Context::Raised { label, .. } = s.context {
        return write!(
            f,
            "has a context raised to label {label}, which must be empty"
        );
    }
    let depth = s.types.len().saturating_sub(8);
    if depth > 0 {
        return write!(f, "has stack depth {depth}, which must be 0");
    }
    match s.types.iter().position(|raw| is_address(type_in(*raw))) {
        Some(r) => write!(
            f,
            "has an address in register {r}, which must be integer or nonsense"
        ),
        None => write!(f, "does not begin as a run does"),
    }
}

fn is_address(t: Ty) -> bool {
    is_pointer(t) || is_code(t)
}

// A word as what it is in its item: the head, a type, the plain word of a cell of a shape's tuple, or an instruction.
#[derive(Clone, Copy)]
enum Spot {
    Head(Head),
    Type,
    Plain { shape: u8, cell: usize },
    Instruction(Instruction),
}

// What the word of this index is in an item of the section, if the item has one.
fn spot_in(section: Section, part: Part<'_>, index: usize) -> Option<Spot> {
    let word = Word::from(*part.words.get(index)?);
    let head = Word::from(*part.words.first()?);
    if index == 0 {
        return Head::decode(word).map(Spot::Head);
    }
    match section {
        Section::Channels => None,
        Section::Shapes | Section::Signatures => Some(Spot::Type),
        Section::Tuples => Some(Spot::Plain {
            shape: head.c,
            cell: index - 1,
        }),
        Section::Blocks => {
            Instruction::decode(index + 1 == part.words.len(), word).map(Spot::Instruction)
        }
    }
}

// The tuple, block or channel that an instruction names.
fn named_by(i: Instruction) -> Option<u8> {
    match i {
        Instruction::SetTuple { tuple, .. } => Some(tuple),
        Instruction::SetBlock { block, .. } | Instruction::Lower { block } => Some(block),
        Instruction::Strike { channel, .. } => Some(channel),
        Instruction::Raise { postdominator, .. } => Some(postdominator),
        Instruction::SetNumber { .. }
        | Instruction::Copy { .. }
        | Instruction::Add { .. }
        | Instruction::Subtract { .. }
        | Instruction::Fetch { .. }
        | Instruction::Store { .. }
        | Instruction::Push { .. }
        | Instruction::Pop { .. }
        | Instruction::Peek { .. }
        | Instruction::Poke { .. }
        | Instruction::Branch { .. }
        | Instruction::Jump { .. }
        | Instruction::Halt => None,
    }
}

// The operands of an instruction that are registers.
fn registers_in(i: Instruction) -> [Option<u8>; 3] {
    match i {
        Instruction::SetNumber { to, .. }
        | Instruction::SetTuple { to, .. }
        | Instruction::SetBlock { to, .. }
        | Instruction::Peek { to, .. } => [Some(to), None, None],
        Instruction::Copy { to, from } => [Some(to), Some(from), None],
        Instruction::Add { to, left, right } | Instruction::Subtract { to, left, right } => {
            [Some(to), Some(left), Some(right)]
        }
        Instruction::Fetch { to, pointer, .. } => [Some(to), Some(pointer), None],
        Instruction::Store { pointer, from, .. } => [Some(pointer), Some(from), None],
        Instruction::Poke { from, .. } | Instruction::Strike { from, .. } => {
            [Some(from), None, None]
        }
        Instruction::Branch { test, target } => [Some(test), Some(target), None],
        Instruction::Jump { target } => [Some(target), None, None],
        Instruction::Push { .. }
        | Instruction::Pop { .. }
        | Instruction::Raise { .. }
        | Instruction::Lower { .. }
        | Instruction::Halt => [None, None, None],
    }
}
