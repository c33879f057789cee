// Why the layout pass refuses an image, in a sentence that says what was found and what was wanted.
use crate::nouns::{Noun, Several};
use image::counts::Counts;
use image::head::Head;
use image::instruction::Instruction;
use image::layout::MOST_WORDS;
use image::rule::{LayoutFault, LayoutRule};
use image::section::Section;
use image::survey::Survey;
use image::ty::Ty;
use image::word::Word;
use std::fmt;

// A refusal by the layout pass: the image, its first fault, and what its items come to before that.
#[derive(Clone, Copy)]
pub struct LayoutRefusal<'a> {
    pub image: &'a [u32],
    pub fault: LayoutFault,
    pub seen: Survey,
}

// The item in which a fault lies: its section, its number there, and the index of the faulty word behind its head.
#[derive(Clone, Copy)]
struct Within {
    section: Section,
    number: usize,
    follows: usize,
    index: usize,
}

impl fmt::Display for LayoutRefusal<'_> {
    fn fmt<W: fmt::Write>(&self, f: &mut fmt::Formatter<W>) -> fmt::Result {
        let place = self.fault.place;
        let number = self.fault.rule.number();
        write!(f, "refused {number} at word {place}, layout: ")?;
        match self.fault.rule {
            LayoutRule::TooLong => too_long(self.image.len(), f),
            LayoutRule::NoBlock => write!(
                f,
                "there is no word {place} and no block, and block 0 is where a run starts"
            ),
            LayoutRule::CutShort => self.cut_short(f),
            _ => self.at_word(f),
        }
    }
}

impl LayoutRefusal<'_> {
    // The word at a place, 0 past the end.
    fn raw(&self, place: usize) -> u32 {
        self.image.get(place).copied().unwrap_or(0)
    }

    // The word at the fault.
    fn word(&self) -> Word {
        Word::from(self.raw(self.fault.place))
    }

    // The item that begins where the whole ones end, if its head is one.
    fn within(&self) -> Option<Within> {
        let start = self.seen.end;
        let head = Head::decode(Word::from(self.raw(start)))?;
        let section = head.section();
        Some(Within {
            section,
            number: self.seen.counts.of(section),
            follows: head.follows(),
            index: self.fault.place.saturating_sub(start),
        })
    }

    fn cut_short<W: fmt::Write>(&self, f: &mut fmt::Formatter<W>) -> fmt::Result {
        let place = self.fault.place;
        let Some(at) = self.within() else {
            return write!(f, "there is no word {place}: the image ends inside an item");
        };
        let here = at.index.saturating_sub(1);
        write!(
            f,
            "there is no word {place}: the image ends inside {} {}, ",
            Noun(at.section),
            at.number
        )?;
        write!(
            f,
            "whose head asks for {} and gets {here}",
            Several(at.follows, "word")
        )
    }

    // The sentences that begin with the word at the fault.
    fn at_word<W: fmt::Write>(&self, f: &mut fmt::Formatter<W>) -> fmt::Result {
        let raw = self.raw(self.fault.place);
        write!(f, "{raw:08X} ")?;
        match self.within() {
            Some(at) if at.index > 0 => self.inside(at, f),
            _ => self.at_head(f),
        }
    }

    fn at_head<W: fmt::Write>(&self, f: &mut fmt::Formatter<W>) -> fmt::Result {
        let word = self.word();
        let Some(head) = Head::decode(word) else {
            let kind = word.kind;
            return write!(
                f,
                "has kind {kind:02X}, and the head of an item is wanted here, of kind 01 to 05"
            );
        };
        match self.fault.rule {
            LayoutRule::FieldNotZero => extra_field(Word::from(head), word, f),
            LayoutRule::TooManyItems => too_many(head.section(), f),
            LayoutRule::SizeOutOfRange => size_range(head, f),
            LayoutRule::TooManyCells => too_many_cells(self.seen.cells, head.follows(), f),
            _ => out_of_order(head.section(), self.seen.counts, f),
        }
    }

    fn inside<W: fmt::Write>(&self, at: Within, f: &mut fmt::Formatter<W>) -> fmt::Result {
        match at.section {
            Section::Blocks => self.in_block(at, f),
            _ => self.in_types(at, f),
        }
    }

    // A type word of a shape or a signature.
    fn in_types<W: fmt::Write>(&self, at: Within, f: &mut fmt::Formatter<W>) -> fmt::Result {
        let word = self.word();
        match (self.fault.rule, Ty::decode(word)) {
            (LayoutRule::FieldNotZero, Some(t)) => extra_field(Word::from(t), word, f),
            (_, Some(_)) => write!(
                f,
                "is nonsense, and shape {} has no nonsense cell",
                at.number
            ),
            (_, None) => {
                let kind = word.kind;
                write!(
                    f,
                    "has kind {kind:02X}, and a type of {} {} is wanted here, ",
                    Noun(at.section),
                    at.number
                )?;
                match at.section {
                    Section::Shapes => write!(f, "of kind 11 to 13"),
                    _ => write!(f, "of kind 10 to 13"),
                }
            }
        }
    }

    // An instruction word of a block.
    fn in_block<W: fmt::Write>(&self, at: Within, f: &mut fmt::Formatter<W>) -> fmt::Result {
        let word = self.word();
        let last = at.index == at.follows;
        let number = at.number;
        let kind = word.kind;
        match (self.fault.rule, Instruction::decode(last, word)) {
            (LayoutRule::FieldNotZero, Some(i)) => extra_field(Word::from(i), word, f),
            _ if last => write!(
                f,
                "has kind {kind:02X}, and the last word of block {number} must end it, by kind 30 to 32"
            ),
            _ if matches!(kind, 0x30..=0x32) => write!(
                f,
                "ends a block, and only the last of the {} words of block {number} may",
                at.follows
            ),
            _ => write!(
                f,
                "has kind {kind:02X}, and an instruction of block {number} is wanted here, of kind 20 to 2E"
            ),
        }
    }
}

fn too_long<W: fmt::Write>(size: usize, f: &mut fmt::Formatter<W>) -> fmt::Result {
    write!(
        f,
        "the image has {size} words, and at most {MOST_WORDS} are allowed"
    )
}

// The latest section that has an item.
fn latest(n: Counts) -> Section {
    [
        Section::Blocks,
        Section::Tuples,
        Section::Signatures,
        Section::Shapes,
    ]
    .into_iter()
    .find(|section| n.of(*section) > 0)
    .unwrap_or(Section::Channels)
}

fn out_of_order<W: fmt::Write>(
    section: Section,
    n: Counts,
    f: &mut fmt::Formatter<W>,
) -> fmt::Result {
    write!(
        f,
        "is the head of a {} behind a {}: ",
        Noun(section),
        Noun(latest(n))
    )?;
    write!(
        f,
        "items stand in the order channels, shapes, signatures, tuples, blocks"
    )
}

fn too_many<W: fmt::Write>(section: Section, f: &mut fmt::Formatter<W>) -> fmt::Result {
    let most = section.most();
    write!(f, "is the head of {} {most}, ", Noun(section))?;
    write!(
        f,
        "and an image has at most {most} {}s, numbered from 0",
        Noun(section)
    )
}

fn too_many_cells<W: fmt::Write>(
    before: usize,
    more: usize,
    f: &mut fmt::Formatter<W>,
) -> fmt::Result {
    write!(
        f,
        "is the head of a tuple of {} behind tuples of ",
        Several(more, "cell")
    )?;
    write!(
        f,
        "{before} together, and all tuples of an image have at most 256"
    )
}

fn size_range<W: fmt::Write>(head: Head, f: &mut fmt::Formatter<W>) -> fmt::Result {
    match head {
        Head::Shape { cells } => write!(
            f,
            "is the head of a shape of {cells} cells, and a shape has 1 to 16"
        ),
        Head::Signature { depth, .. } => write!(
            f,
            "is the head of a signature of stack depth {depth}, and a depth is 0 to 32"
        ),
        Head::Tuple { cells, .. } => write!(
            f,
            "is the head of a tuple of {cells} cells, and a tuple has 1 to 16"
        ),
        Head::Block { words, .. } => write!(
            f,
            "is the head of a block of {words} words, and a block has 1 to 64"
        ),
        Head::Channel { label } => write!(f, "is the head of a channel of label {label}"),
    }
}

// Which field of a word is set that its kind does not name; `plain` is the word without it.
fn extra_field<W: fmt::Write>(plain: Word, w: Word, f: &mut fmt::Formatter<W>) -> fmt::Result {
    let (name, value) = if w.a != plain.a {
        ("a", w.a)
    } else if w.b != plain.b {
        ("b", w.b)
    } else {
        ("c", w.c)
    };
    let kind = w.kind;
    write!(
        f,
        "has {value} in field {name}, which a word of kind {kind:02X} does not use here and must leave 0"
    )
}
