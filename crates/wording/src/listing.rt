// The listing of an image: a line for each word.
use crate::nouns::{Noun, Several};
use crate::terms::{HeadText, InstructionText, TypeText};
use image::head::Head;
use image::instruction::Instruction;
use image::item::Item;
use image::section::Section;
use image::survey::Survey;
use image::ty::Ty;
use image::word::Word;
use std::fmt;

// The lines of an item: for each of its words the place, the word, and what it says.
#[derive(Clone, Copy)]
pub struct ItemLines<'a>(pub Item<'a>);

impl<'a> fmt::Display for ItemLines<'a> {
    fn fmt<W: fmt::Write>(&self, f: &mut fmt::Formatter<W>) -> fmt::Result {
        let part = self.0.part();
        let section = self.0.section();
        let size = part.words.len();
        for (i, &raw) in part.words.iter().enumerate() {
            let place = part.place.saturating_add(i);
            write!(f, "{place:>5}  {raw:08X}  ")?;
            if i == 0 {
                head_line(section, part.number, raw, f)?;
            } else {
                inner_line(section, i - 1, i + 1 == size, raw, f)?;
            }
        }
        Ok(())
    }
}

fn head_line<W: fmt::Write>(
    section: Section,
    number: usize,
    raw: u32,
    f: &mut fmt::Formatter<W>,
) -> fmt::Result {
    match Head::decode(Word::from(raw)) {
        Some(head) => writeln!(f, "{} {number}: {}", Noun(section), HeadText(head)),
        None => writeln!(f, "{} {number}", Noun(section)),
    }
}

// A word within an item, the i-th behind its head.
fn inner_line<W: fmt::Write>(
    section: Section,
    i: usize,
    last: bool,
    raw: u32,
    f: &mut fmt::Formatter<W>,
) -> fmt::Result {
    match section {
        Section::Channels => writeln!(f, ""),
        Section::Shapes => {
            write!(f, "  cell {i}: ")?;
            type_line(raw, f)
        }
        Section::Signatures if i < 8 => {
            write!(f, "  r{i}: ")?;
            type_line(raw, f)
        }
        Section::Signatures => {
            write!(f, "  slot {}: ", i - 8)?;
            type_line(raw, f)
        }
        Section::Tuples => writeln!(f, "  cell {i}: {raw}"),
        Section::Blocks => instruction_line(last, raw, f),
    }
}

fn type_line<W: fmt::Write>(raw: u32, f: &mut fmt::Formatter<W>) -> fmt::Result {
    match Ty::decode(Word::from(raw)) {
        Some(t) => writeln!(f, "{}", TypeText(t)),
        None => writeln!(f, "no type"),
    }
}

fn instruction_line<W: fmt::Write>(last: bool, raw: u32, f: &mut fmt::Formatter<W>) -> fmt::Result {
    match Instruction::decode(last, Word::from(raw)) {
        Some(i) => writeln!(f, "  {}", InstructionText(i)),
        None => writeln!(f, "  no instruction"),
    }
}

// The summary of an image: how many words and items it has.
#[derive(Clone, Copy)]
pub struct Summary(pub Survey);

impl fmt::Display for Summary {
    fn fmt<W: fmt::Write>(&self, f: &mut fmt::Formatter<W>) -> fmt::Result {
        let seen = self.0;
        let n = seen.counts;
        write!(f, "{}: ", Several(seen.end, "word"))?;
        write!(f, "{}, ", Several(n.channels, "channel"))?;
        write!(f, "{}, ", Several(n.shapes, "shape"))?;
        write!(f, "{}, ", Several(n.signatures, "signature"))?;
        write!(f, "{} ", Several(n.tuples, "tuple"))?;
        write!(f, "with {}, ", Several(seen.cells, "cell"))?;
        write!(f, "{}", Several(n.blocks, "block"))
    }
}
