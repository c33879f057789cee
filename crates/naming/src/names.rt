ghost use Rattle.image.specs.Finding.{broken};
ghost use Rattle.naming.specs.Inner.{no_such};
ghost use Rattle.programme.specs.Spelled.{program_in, count_in};
ghost use Rattle.std.specs.List.{list_all};
ghost use Rattle.std.specs.Prelude.{◌≡◌, [], ◌∷◌, nat_lt};
ghost use Rattle.std.specs.Result.{result_err};

use image::fault::ask;
use image::section::Section;
use labels::LabelKind;
use programme::laid_out::LaidOut;
use rules::rule::NamingRule;

// How many registers there are.
pub const REGISTERS: usize = 8;

fn is_register(n: u8) -> bool
    ensures { result ≡ nat_lt n 8 }
{
    usize::from(n) < REGISTERS
}

pub fn are_registers(numbers: &[u8]) -> bool
    ensures { result ≡ list_all (λ n. nat_lt n 8) numbers.now }
{
    numbers.iter().all(|n| is_register(*n))
}

// What the words of an image may name: the parts of its programme, and the labels of a kind.
#[derive_where(Clone, Copy)]
pub struct Names<'a, K> {
    pub kind: &'a K,
    pub image: LaidOut<'a>,
}

impl<K: LabelKind> Names<'_, K> {
    pub fn is_label(&self, code: u8) -> bool
        ensures { result ≡ nat_lt code (K.LabelKind.meaning self.now.kind.now).count }
    {
        u16::from(code) < self.kind.count()
    }

    // Whether the programme has a part of the section and number.
    pub fn is_there(&self, section: Section, n: u8) -> bool
        ensures { result ≡ nat_lt n (count_in (program_in self.now.image) section) }
    {
        usize::from(n) < self.image.count(section)
    }

    pub fn part_fault(&self, section: Section, n: u8) -> Result<(), NamingRule>
        ensures { result_err result ≡ broken ((no_such section, nat_lt n (count_in (program_in self.now.image) section)) ∷ []) }
    {
        ask(self.is_there(section, n), no_such(section))
    }
}

// The rule that a part of the section is there.
fn no_such(section: Section) -> NamingRule
    ensures { result ≡ no_such section }
{
    match section {
        Section::Channels => NamingRule::NoSuchChannel,
        Section::Shapes => NamingRule::NoSuchShape,
        Section::Signatures => NamingRule::NoSuchSignature,
        Section::Tuples => NamingRule::NoSuchTuple,
        Section::Blocks => NamingRule::NoSuchBlock,
    }
}
