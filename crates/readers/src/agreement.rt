ghost use Rattle.readers.specs.Compared.{Compared, PartAt};
ghost use Rattle.std.specs.Prelude.{◌≡◌, MatchOption, length, min, take};

use machine::strike::Strike;
use std::cmp::Ordering;

// How two lists of strikes stand to each other: they are the same, one is a beginning of the other and shorter, or they part at a
// record.
#[derive(Clone, Copy, PartialEq, Eq, Debug)]
pub enum Agreement {
    Same,
    FirstBegins,
    SecondBegins,
    Apart { at: usize },
}

pub fn compare(xs: &[Strike], ys: &[Strike]) -> Agreement
    ensures { Compared xs.now ys.now result }
{
    match first_apart(xs, ys) {
        Some(at) => Agreement::Apart { at },
        None => match xs.len().cmp(&ys.len()) {
            Ordering::Less => Agreement::FirstBegins,
            Ordering::Equal => Agreement::Same,
            Ordering::Greater => Agreement::SecondBegins,
        },
    }
}

// The first place at which both lists have a record, and not the same one.
fn first_apart(xs: &[Strike], ys: &[Strike]) -> Option<usize>
    ensures { MatchOption result (take (min (length xs.now) (length ys.now)) xs.now ≡ take (min (length xs.now) (length ys.now)) ys.now) (λ at. PartAt xs.now ys.now at) }
{
    xs.iter().zip(ys).position(|(x, y)| x != y)
}
