ghost use Rattle.image.specs.Reader.{to_come, HandsOut};
ghost use Rattle.image.specs.Items.{pieces, whole_head, reach};
ghost use Rattle.image.specs.Splits.{Split};
ghost use Rattle.image.specs.Surveys.{nothing_seen, surveyed};
ghost use Rattle.image.specs.Heads.{follows};
ghost use Rattle.image.specs.Layout.{layout};
ghost use Rattle.std.specs.Prelude.{◌≡◌, ◌-◌, ◌<◌, ◌≤◌, length, IfSome};
ghost use Rattle.std.specs.Iterator.{at_most};

use crate::head::Head;
use crate::item::{Item, Part};
use crate::items::Items;
use crate::layout::first_fault;
use crate::survey::Survey;
use crate::word::Word;

impl<'a> Items<'a> {
    // The items of an image, from its front to its first fault.
    #[tactic(auto, using(crate::proofs::Splitting::splits))]
    pub fn of(image: &'a [u32]) -> Items<'a>
        ensures items { to_come result ≡ pieces image.now }
        ensures split { Split image.now (pieces image.now) }
        ensures seen { result.seen ≡ nothing_seen }
    {
        let sound = sound_words(image);
        Items {
            front: &image[0..sound],
            seen: Survey::nothing(),
        }
    }

    // What the items that were handed out come to.
    pub fn into_seen(self) -> Survey
        ensures { result ≡ self.entry.seen }
    {
        let Items { front: _, seen } = self;
        seen
    }
}

impl<'a> Iterator for Items<'a> {
    type Item = Item<'a>;

    ghost next_gives = { λ s r t. HandsOut s r t };

    ghost remaining = { λ s. at_most (length s.front.now - s.seen.end) };

    fn next(&mut self) -> Option<Item<'a>> {
        let front = self.front;
        let place = self.seen.end;
        let head = whole_head(&front[place..])?;
        let section = head.section();
        let number = self.seen.counts.of(section);
        let size = 1 + head.follows();
        self.seen.add(section, size);
        let words = &front[place..place + size];
        Some(Item::of(
            section,
            Part {
                place,
                number,
                words,
            },
        ))
    }
}

// What all items of an image come to, as far as its first fault.
pub fn survey(image: &[u32]) -> Survey
    ensures { result ≡ surveyed nothing_seen (pieces image.now) }
{
    let mut items = Items::of(image);
    while let Some(_) = items.next() {}
    items.into_seen()
}

// How many words stand before the first fault.
fn sound_words(image: &[u32]) -> usize
    ensures value { result ≡ reach image.now (layout image.now) }
    ensures within { result ≤ length image.now }
{
    first_fault(image).map_or(image.len(), |fault| fault.place)
}

// The head of the item that the words begin with, where they hold the whole of it.
fn whole_head(words: &[u32]) -> Option<Head>
    ensures value { result ≡ whole_head words.now }
    ensures within { IfSome result (λ h. follows h < length words.now) }
{
    let raw = words.first()?;
    Head::decode(Word::from(*raw)).filter(|head| head.follows() < words.len())
}
