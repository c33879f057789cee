ghost use Rattle.std.specs.Prelude.{◌≤◌};

use crate::section::Section;

mod step;

// Where the layout pass stands before a word, behind words that break no rule.
#[derive(Clone, Copy)]
pub struct Stand {
    // the section of the latest head
    section: Section,
    // how many items that section has so far
    count: usize,
    // how many cells all tuples have so far
    cells: usize,
    // how many words of the present item are still to come
    left: usize,
    ghost few: { count ≤ 128 },
    ghost small: { cells ≤ 256 },
}
