ghost use Rattle.image.specs.Words.{split};
ghost use Rattle.naming.specs.Inner.{IsPlaced};
ghost use Rattle.std.specs.Prelude.{◌≡◌, ◌+◌, ◌^◌, ◌<◌, drop, length, slice_index};

use image::item::Part;
use image::word::Word;

// A part of an image with its head read off: the place of the head, the part's number, and the words behind the head.
#[derive(Clone, Copy)]
pub struct Headed<'a> {
    pub place: usize,
    pub number: usize,
    pub head: Word,
    pub behind: &'a [u32],
    // no place in it is too large a number
    ghost in_range: { place + 1 + length behind.now < 2 ^ 64 },
}

impl<'a> Headed<'a> {
    pub fn of(part: Part<'a>) -> Headed<'a>
        requires { IsPlaced part }
        ensures place { result.place ≡ part.entry.place }
        ensures number { result.number ≡ part.entry.number }
        ensures head { result.head ≡ split (slice_index part.entry.words.now 0) }
        ensures behind { result.behind.now ≡ drop 1 part.entry.words.now }
    {
        Headed {
            place: part.place,
            number: part.number,
            head: Word::from(part.words[0]),
            behind: &part.words[1..],
        }
    }
}
