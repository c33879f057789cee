// The record of a run, in words.
use machine::strike::Strike;
use press_box::fault::{Pass, RunFault};
use std::fmt;
use wording::Several;

#[derive(Clone, Copy)]
pub struct PassText(pub Pass);

impl fmt::Display for PassText {
    fn fmt<W: fmt::Write>(&self, f: &mut fmt::Formatter<W>) -> fmt::Result {
        match self.0 {
            Pass::Layout => write!(f, "layout"),
            Pass::Naming => write!(f, "naming"),
            Pass::Flow => write!(f, "flow"),
        }
    }
}

// A refused run: why, and what to do. A length that was given stands beside the one that the image asks.
#[derive(Clone, Copy)]
pub enum RunRefusal {
    Empty,
    Stopped,
    JobLength { given: usize, asked: usize },
    SheetTooShort { given: usize, asked: usize },
}

impl RunRefusal {
    // The box's answer.
    fn fault(self) -> RunFault {
        match self {
            RunRefusal::Empty => RunFault::Empty,
            RunRefusal::Stopped => RunFault::Stopped,
            RunRefusal::JobLength { .. } => RunFault::JobLength,
            RunRefusal::SheetTooShort { .. } => RunFault::SheetTooShort,
        }
    }
}

impl fmt::Display for RunRefusal {
    fn fmt<W: fmt::Write>(&self, f: &mut fmt::Formatter<W>) -> fmt::Result {
        let number = self.fault().number();
        write!(f, "refused {number}: ")?;
        match *self {
            RunRefusal::Empty => write!(f, "the box is empty; load an image"),
            RunRefusal::Stopped => write!(
                f,
                "the box is stopped by an earlier job; put a line 'load' before this one"
            ),
            RunRefusal::JobLength { given, asked } => write!(
                f,
                "the job has {}, the image has {asked} integer cells; give a word for each",
                Several(given, "word")
            ),
            RunRefusal::SheetTooShort { given, asked } => write!(
                f,
                "the sheet has {}, the image has {asked} cells; give the sheet a word for each",
                Several(given, "word")
            ),
        }
    }
}

// Strikes in one line, each a channel and a word.
#[derive(Clone, Copy)]
pub struct StrikesText<'a>(pub &'a [Strike]);

impl fmt::Display for StrikesText<'_> {
    fn fmt<W: fmt::Write>(&self, f: &mut fmt::Formatter<W>) -> fmt::Result {
        let Some((first, others)) = self.0.split_first() else {
            return write!(f, "nothing");
        };
        write!(f, "{}:{}", first.channel, first.word)?;
        for strike in others {
            write!(f, " {}:{}", strike.channel, strike.word)?;
        }
        Ok(())
    }
}
