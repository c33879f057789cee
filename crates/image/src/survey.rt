ghost use Rattle.std.specs.Prelude.{◌≡◌, ◌+◌, ◌^◌, ◌<◌};
ghost use Rattle.image.specs.Counts.{total};
ghost use Rattle.image.specs.Surveys.{nothing_seen, with_item};

use crate::counts::Counts;
use crate::section::Section;

// What some items of an image, from its front, come to.
#[derive(Clone, Copy)]
pub struct Survey {
    // how many items of each section there are
    pub counts: Counts,
    // how many cells all tuples have
    pub cells: usize,
    // how many words all items have: the place at which the next one begins
    pub end: usize,
}

impl Survey {
    pub(crate) fn nothing() -> Survey
        ensures { result ≡ nothing_seen }
    {
        Survey {
            counts: Counts::none(),
            cells: 0,
            end: 0,
        }
    }

    // One item more, of so many words.
    pub(crate) fn add(&mut self, section: Section, size: usize)
        requires count { total self.old.counts + 1 < 2 ^ 64 }
        requires cells { self.old.cells + size < 2 ^ 64 }
        requires some { 0 < size }
        requires end { self.old.end + size < 2 ^ 64 }
        ensures { self.new ≡ with_item self.old section size }
    {
        self.counts.add(section);
        if let Section::Tuples = section {
            self.cells += size - 1;
        }
        self.end += size;
    }
}
