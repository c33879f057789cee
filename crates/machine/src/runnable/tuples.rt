ghost use Rattle.std.specs.Prelude.{◌≡◌, ◌<◌, ◌^◌, map, length};
ghost use Rattle.std.specs.Iterator.Adapters.{zip_first, zip_second};
ghost use Rattle.std.specs.Slice.Iter.{iter_rest};
ghost use Rattle.rules.specs.Program.{shape_at};
ghost use Rattle.rules.specs.Says.{type_in};
ghost use Rattle.std.specs.Iterator.{YieldsFirstBy, item_count};
ghost use Rattle.machine.specs.Runnables.{programme_of};
ghost use Rattle.machine.specs.Tuples.{tuples_left};
ghost use Rattle.programme.specs.Spelled.{tuple_spelled};

use crate::runnable::Runnable;
use image::item::Item;
use image::items::Items;
use image::word::Word;
use programme::parts::TupleWords;
use std::iter::Zip;
use std::slice::Iter;

// The tuples of an image that are still to come.
#[derive(Drop)]
pub(crate) struct Tuples<'a> {
    items: Items<'a>,
}

impl<'a> Runnable<'a> {
    // The tuples, in their order.
    pub(crate) fn tuples(self) -> Tuples<'a>
        ensures { tuples_left result ≡ (programme_of self.entry).tuples }
    {
        Tuples {
            items: Items::of(self.image.words()),
        }
    }

    // A type word and a plain word for each cell of the tuple.
    pub(crate) fn cells_of<'b>(self, tuple: TupleWords<'b>) -> Zip<Iter<'a, u32>, Iter<'b, u32>>
        ensures types { map type_in (iter_rest (zip_first result)) ≡ shape_at (programme_of self.entry) tuple.entry.shape }
        ensures words { iter_rest (zip_second result) ≡ tuple.entry.words.now }
        ensures few { length (iter_rest (zip_second result)) < 2 ^ 64 }
    {
        self.image.shape_types(tuple.shape).iter().zip(tuple.words)
    }
}

impl<'a> Iterator for Tuples<'a> {
    type Item = TupleWords<'a>;

    ghost next_gives = { YieldsFirstBy tuple_spelled tuples_left };

    ghost remaining = { item_count tuples_left };

    #[tactic(auto, using(crate::proofs::Headed::handed_some))]
    fn next(&mut self) -> Option<TupleWords<'a>> {
        while let Some(item) = self.items.next() {
            if let Item::Tuple(part) = item {
                return Some(TupleWords {
                    shape: Word::from(part.words[0]).c,
                    words: &part.words[1..],
                });
            }
        }
        None
    }
}
