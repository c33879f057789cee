ghost use Rattle.std.specs.Prelude.{Some};
ghost use Rattle.machine.specs.Endings.{end_shown};

use std::fmt;

// How a run ended: the programme halted, the fuel was spent, or the strip had no room for a strike.
#[derive(Clone, Copy, PartialEq, Eq, Debug)]
pub enum End {
    Halted,
    Spent,
    Full,
}

impl fmt::Display for End {
    ghost output = { λ e. Some (end_shown e) };

    fn fmt<W: fmt::Write>(&self, f: &mut fmt::Formatter<W>) -> fmt::Result {
        match *self {
            End::Halted => write!(f, "halted"),
            End::Spent => write!(f, "spent"),
            End::Full => write!(f, "full"),
        }
    }
}

// What a run answers: its end, how many steps it took, and how many strikes it made.
#[derive(Clone, Copy, PartialEq, Eq, Debug)]
pub struct Ran {
    pub end: End,
    pub steps: u32,
    pub strikes: usize,
}
