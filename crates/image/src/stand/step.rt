ghost use Rattle.image.specs.Finding.{broken};
ghost use Rattle.image.specs.Layout.{outset, step, head_tests, word_tests, end_tests, type_tests, instruction_tests, inner_tests, size_fine, cells_of};
ghost use Rattle.image.specs.Stands.{stood, after_head_word};
ghost use Rattle.image.specs.Words.{same};
ghost use Rattle.image.specs.declared.rule.LayoutRule.TheVariants.{FieldNotZero};
ghost use Rattle.std.specs.Prelude.{◌≡◌, [], ◌∷◌, ◌<◌, IfOk};
ghost use Rattle.std.specs.Result.{result_err};

use crate::fault::ask;
use crate::head::Head;
use crate::instruction::Instruction;
use crate::rule::LayoutRule;
use crate::section::Section;
use crate::stand::Stand;
use crate::ty::Ty;
use crate::word::Word;

impl Stand {
    // Before the first word.
    pub fn outset() -> Stand
        ensures { stood result ≡ outset }
    {
        Stand {
            section: Section::Channels,
            count: 0,
            cells: 0,
            left: 0,
        }
    }

    // Behind the word, or else the rule of the lowest number that the word breaks.
    pub fn after(self, raw: u32) -> Result<Stand, LayoutRule>
        ensures rule { result_err result ≡ broken (word_tests (stood self) raw) }
        ensures stand { IfOk result (λ s. stood s ≡ step (stood self) raw) }
    {
        let w = Word::from(raw);
        if self.left == 0 {
            return self.after_head(w);
        }
        let left = self.left - 1;
        inner_fault(self.section, left, w)?;
        // each field by itself: `..self` may not stand where a type has facts of its own
        Ok(Stand {
            section: self.section,
            count: self.count,
            cells: self.cells,
            left,
        })
    }

    // The same of a word where a head is wanted.
    fn after_head(self, w: Word) -> Result<Stand, LayoutRule>
        ensures rule { result_err result ≡ broken (head_tests (stood self) w) }
        ensures stand { IfOk result (λ s. stood s ≡ after_head_word (stood self) w) }
    {
        let head = Head::decode(w).ok_or(LayoutRule::KindOutOfPlace)?;
        let section = head.section();
        ask(
            self.section.rank() <= section.rank(),
            LayoutRule::KindOutOfPlace,
        )?;
        field_fault(Word::from(head), w)?;
        let count = if section == self.section {
            self.count + 1
        } else {
            1
        };
        ask(count <= section.most(), LayoutRule::TooManyItems)?;
        ask(size_fine(head), LayoutRule::SizeOutOfRange)?;
        let cells = self.cells + cells_of(head);
        ask(cells <= 256, LayoutRule::TooManyCells)?;
        Ok(Stand {
            section,
            count,
            cells,
            left: head.follows(),
        })
    }

    // What the end of the image breaks.
    pub fn end(self) -> Result<(), LayoutRule>
        ensures { result_err result ≡ broken (end_tests (stood self)) }
    {
        ask(self.left == 0, LayoutRule::CutShort)?;
        ask(self.section == Section::Blocks, LayoutRule::NoBlock)
    }
}

fn size_fine(h: Head) -> bool
    ensures { result ≡ size_fine h }
{
    match h {
        Head::Channel { .. } => true,
        Head::Shape { cells } => (1..=16).contains(&cells),
        Head::Signature { depth, .. } => depth <= 32,
        Head::Tuple { cells, .. } => (1..=16).contains(&cells),
        Head::Block { words, .. } => (1..=64).contains(&words),
    }
}

fn cells_of(h: Head) -> usize
    ensures value { result ≡ cells_of h }
    ensures small { result < 256 }
{
    match h {
        Head::Tuple { cells, .. } => usize::from(cells),
        _ => 0,
    }
}

// A word within an item of the section, with so many words of the item behind it.
fn inner_fault(section: Section, behind: usize, w: Word) -> Result<(), LayoutRule>
    ensures { result_err result ≡ broken (inner_tests section behind w) }
{
    match section {
        Section::Channels | Section::Tuples => Ok(()),
        Section::Shapes => type_fault(false, w),
        Section::Signatures => type_fault(true, w),
        Section::Blocks => instruction_fault(behind == 0, w),
    }
}

fn type_fault(nonsense_fine: bool, w: Word) -> Result<(), LayoutRule>
    ensures { result_err result ≡ broken (type_tests nonsense_fine w) }
{
    let t = Ty::decode(w).ok_or(LayoutRule::KindOutOfPlace)?;
    ask(
        nonsense_fine || !t.is_nonsense(),
        LayoutRule::KindOutOfPlace,
    )?;
    field_fault(Word::from(t), w)
}

fn instruction_fault(last: bool, w: Word) -> Result<(), LayoutRule>
    ensures { result_err result ≡ broken (instruction_tests last w) }
{
    let i = Instruction::decode(last, w).ok_or(LayoutRule::KindOutOfPlace)?;
    field_fault(Word::from(i), w)
}

// A word beside what its own meaning is written as, in which every field that it does not name is zero.
fn field_fault(written: Word, w: Word) -> Result<(), LayoutRule>
    ensures { result_err result ≡ broken ((FieldNotZero, same written w) ∷ []) }
{
    ask(written == w, LayoutRule::FieldNotZero)
}
