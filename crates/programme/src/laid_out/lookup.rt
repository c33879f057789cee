ghost use Rattle.image.specs.Items.{pieces};
ghost use Rattle.programme.specs.Lookup.{nth_piece, part_piece, WithinLimits, Between};
ghost use Rattle.programme.specs.Spelled.{words_in, program_in, count_in, shape_spelled, signature_spelled, tuple_spelled, block_spelled};
ghost use Rattle.rules.specs.Program.{shape_at};
ghost use Rattle.rules.specs.Says.{type_in};
ghost use Rattle.std.specs.List.{slice_get};
ghost use Rattle.std.specs.Prelude.{◌≡◌, map, length, IfSome};
ghost use Rattle.std.specs.Option.{option_map};

use crate::laid_out::LaidOut;
use crate::parts::{BlockWords, Shape, SignatureWords, TupleWords};
use image::head::Context;
use image::item::Part;
use image::items::{Items, survey};
use image::section::Section;
use image::word::Word;

impl<'a> LaidOut<'a> {
    // The part of the section that has the number.
    fn part(&self, section: Section, number: usize) -> Option<Part<'a>>
        ensures value { option_map (part_piece section) result ≡ nth_piece section number (pieces (words_in self.now)) }
        ensures size { IfSome result (λ p. WithinLimits section (length p.words.now)) }
    {
        for item in Items::of(self.words) {
            let part = item.part();
            if item.section() == section && part.number == number {
                return Some(part);
            }
        }
        None
    }

    // The label of channel n.
    pub fn channel(&self, n: u8) -> Option<u8>
        ensures { result ≡ slice_get (program_in self.now).channels n }
    {
        let part = self.part(Section::Channels, usize::from(n))?;
        Some(Word::from(part.words[0]).c)
    }

    pub fn shape(&self, n: u8) -> Option<Shape<'a>>
        ensures value { option_map shape_spelled result ≡ slice_get (program_in self.now).shapes n }
        ensures size { IfSome result (λ x. Between 1 16 (length x.types.now)) }
    {
        let part = self.part(Section::Shapes, usize::from(n))?;
        Some(Shape {
            types: &part.words[1..],
        })
    }

    // The type words of a shape's cells; of a shape that the programme lacks there are none.
    #[tactic(auto, using(std::proofs::lemmas::Option::gets, std::proofs::lemmas::Grind::common_steps))]
    pub fn shape_types(&self, n: u8) -> &'a [u32]
        ensures { map type_in result.now ≡ shape_at (program_in self.now) n }
    {
        self.shape(n).map_or(&[], |shape| shape.types)
    }

    pub fn signature(&self, n: u8) -> Option<SignatureWords<'a>>
        ensures value { option_map signature_spelled result ≡ slice_get (program_in self.now).signatures n }
        ensures size { IfSome result (λ x. Between 8 40 (length x.types.now)) }
    {
        let part = self.part(Section::Signatures, usize::from(n))?;
        Some(SignatureWords {
            context: Context::from(Word::from(part.words[0])),
            types: &part.words[1..],
        })
    }

    // A plain word names a tuple by a whole word.
    pub fn tuple(&self, n: u32) -> Option<TupleWords<'a>>
        ensures value { option_map tuple_spelled result ≡ slice_get (program_in self.now).tuples n }
        ensures size { IfSome result (λ x. Between 1 16 (length x.words.now)) }
    {
        let part = self.part(Section::Tuples, n as usize)?;
        Some(TupleWords {
            shape: Word::from(part.words[0]).c,
            words: &part.words[1..],
        })
    }

    // A plain word names a block by a whole word.
    pub fn block(&self, n: u32) -> Option<BlockWords<'a>>
        ensures value { option_map block_spelled result ≡ slice_get (program_in self.now).blocks n }
        ensures size { IfSome result (λ x. Between 1 64 (length x.words.now)) }
    {
        let part = self.part(Section::Blocks, n as usize)?;
        Some(BlockWords {
            signature: Word::from(part.words[0]).b,
            words: &part.words[1..],
        })
    }

    // How many parts of the section the programme has.
    pub fn count(&self, section: Section) -> usize
        ensures { result ≡ count_in (program_in self.now) section }
    {
        survey(self.words).counts.of(section)
    }
}
