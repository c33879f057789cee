ghost use Rattle.image.specs.Faults.{answered};
ghost use Rattle.image.specs.Items.{part_of, item_section};
ghost use Rattle.naming.specs.Inner.{IsPlaced};
ghost use Rattle.programme.specs.Lookup.{part_piece};
ghost use Rattle.programme.specs.Spelled.{program_in};
ghost use Rattle.rules.specs.Naming.{part_named};
ghost use Rattle.rules.specs.Says.{part_in, says};
ghost use Rattle.std.specs.Prelude.{◌≡◌};

use crate::fault::NamingFault;
use crate::headed::Headed;
use crate::names::Names;
use image::fault::{Fault, ask};
use image::head::Context;
use image::item::Item;
use image::section::Section;
use labels::LabelKind;
use rules::rule::NamingRule;

impl<K: LabelKind> Names<'_, K> {
    // An item: its head, then the words behind it.
    pub fn item_fault(&self, item: Item<'_>) -> Result<(), NamingFault>
        requires { IsPlaced (part_of item) }
        ensures { answered result ≡ part_named (K.LabelKind.meaning self.now.kind.now) (program_in self.now.image) (part_of item.entry).number (part_of item.entry).place (says (part_piece (item_section item.entry) (part_of item.entry))) }
    {
        let part = Headed::of(item.part());
        match item.section() {
            Section::Channels => self.channel_fault(part),
            Section::Shapes => self.types_fault(part),
            Section::Signatures => self.signature_fault(part),
            Section::Tuples => self.tuple_fault(part),
            Section::Blocks => self.block_fault(part),
        }
    }

    // A channel names a label, and nothing of the programme.
    fn channel_fault(&self, part: Headed<'_>) -> Result<(), NamingFault>
        ensures { answered result ≡ part_named (K.LabelKind.meaning self.now.kind.now) (program_in self.now.image) part.entry.number part.entry.place (part_in Section.Channels part.entry.head part.entry.behind.now) }
    {
        let answer = ask(self.is_label(part.head.c), NamingRule::NotALabel);
        Fault::at(part.place, answer)
    }

    fn signature_fault(&self, part: Headed<'_>) -> Result<(), NamingFault>
        ensures { answered result ≡ part_named (K.LabelKind.meaning self.now.kind.now) (program_in self.now.image) part.entry.number part.entry.place (part_in Section.Signatures part.entry.head part.entry.behind.now) }
    {
        let context = Context::from(part.head);
        Fault::at(part.place, self.context_fault(context))?;
        self.types_fault(part)
    }

    fn tuple_fault(&self, part: Headed<'_>) -> Result<(), NamingFault>
        ensures { answered result ≡ part_named (K.LabelKind.meaning self.now.kind.now) (program_in self.now.image) part.entry.number part.entry.place (part_in Section.Tuples part.entry.head part.entry.behind.now) }
    {
        let shape = self.image.shape(part.head.c).ok_or(NamingRule::NoSuchShape);
        let types = Fault::at(part.place, shape)?.types;
        let same_count = ask(part.behind.len() == types.len(), NamingRule::WrongCellCount);
        Fault::at(part.place, same_count)?;
        self.plains_fault(part, types)
    }

    fn block_fault(&self, part: Headed<'_>) -> Result<(), NamingFault>
        ensures { answered result ≡ part_named (K.LabelKind.meaning self.now.kind.now) (program_in self.now.image) part.entry.number part.entry.place (part_in Section.Blocks part.entry.head part.entry.behind.now) }
    {
        Fault::at(part.place, self.entry_fault(part.number, part.head.b))?;
        self.instructions_fault(part)
    }
}
