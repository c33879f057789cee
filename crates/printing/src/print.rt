// Runs every job of an edition, and prints a record of each.
use crate::calls::{Printed, load, run};
use crate::failure::Failure;
use crate::files::{image_of, text_of};
use crate::lines::{Call, JobCall, lines_of};
use labels::LabelKind;
use machine::ran::End;
use press_box::imprint_box::ImprintBox;
use std::{fmt, io};
use wording::Several;

// How the calls of an edition came out.
#[derive(Clone, Copy, Default)]
struct Tally {
    halted: usize,
    spent: usize,
    full: usize,
    refused: usize,
    loads: usize,
}

impl Tally {
    fn count(&mut self, end: End) {
        let ended = match end {
            End::Halted => &mut self.halted,
            End::Spent => &mut self.spent,
            End::Full => &mut self.full,
        };
        *ended = ended.saturating_add(1);
    }
}

impl fmt::Display for Tally {
    fn fmt<W: fmt::Write>(&self, f: &mut fmt::Formatter<W>) -> fmt::Result {
        let Tally {
            halted,
            spent,
            full,
            refused,
            loads,
        } = *self;
        let jobs = halted
            .saturating_add(spent)
            .saturating_add(full)
            .saturating_add(refused);
        let jobs = Several(jobs, "job");
        let loads = Several(loads, "further load");
        write!(
            f,
            "{jobs}: {halted} halted, {spent} spent, {full} full, {refused} refused; {loads}"
        )
    }
}

// A printing under way: its box, and how the calls on it came out so far.
#[derive(Drop)]
struct Printing<'a, K> {
    rt: &'a HostRuntime,
    press: ImprintBox<K>,
    tally: Tally,
}

// Loads the image, and runs every job of the edition in its order.
pub fn print_edition<K: LabelKind + Drop>(
    rt: &HostRuntime,
    kind: K,
    image: &str,
    edition: &str,
) -> Result<(), Failure> {
    let words = image_of(rt, image)?;
    let text = text_of(rt, edition)?;
    let lines = lines_of(rt.alloc(), edition, text.as_str())?;
    let mut printing = Printing {
        rt,
        press: ImprintBox::new(kind),
        tally: Tally::default(),
    };
    load(rt, &mut printing.press, image, words.as_slice())?;
    let mut job_words = Vec::new(rt.alloc());
    for line in lines.iter() {
        match line.call(&mut job_words)? {
            Call::Job(call) => printing.run(&call)?,
            Call::Load => printing.load_again(words.as_slice())?,
        }
    }
    let tally = printing.tally;
    println!(rt; "edition: {tally}")?;
    Ok(())
}

impl<K: LabelKind> Printing<'_, K> {
    // A line `load`.
    fn load_again(&mut self, image: &[u32]) -> io::Result<()> {
        self.tally.loads = self.tally.loads.saturating_add(1);
        load(self.rt, &mut self.press, "load", image)
    }

    // One job: its record.
    fn run(&mut self, call: &JobCall<'_>) -> Result<(), Failure> {
        let name = call.name();
        match run(self.rt.alloc(), &mut self.press, call)? {
            Err(refusal) => {
                self.tally.refused = self.tally.refused.saturating_add(1);
                println!(self.rt; "job {name}: {refusal}")?;
            }
            Ok(printed) => {
                self.tally.count(printed.end);
                self.record(name, &printed)?;
            }
        }
        Ok(())
    }

    fn record(&self, name: &str, printed: &Printed) -> io::Result<()> {
        let end = printed.end;
        let steps = printed.steps;
        let made = Several(printed.strikes.len(), "strike");
        println!(self.rt; "job {name}: {end} after {steps} steps, {made}")?;
        for strike in printed.strikes.iter() {
            println!(self.rt; "  strike on channel {}: {}", strike.channel, strike.word)?;
        }
        print!(self.rt; "  cells:")?;
        for word in printed.sheet.iter().take(self.press.cell_count()) {
            print!(self.rt; " {word}")?;
        }
        println!(self.rt; "")?;
        advise(self.rt, printed.end)
    }
}

// What the engineer has to do where the job stopped the box.
fn advise(rt: &HostRuntime, end: End) -> io::Result<()> {
    match end {
        End::Halted => Ok(()),
        End::Spent => println!(rt;
            "  the fuel is spent and the box is stopped: give this job more fuel, and load the image again (a line 'load') before the next job"
        ),
        End::Full => println!(rt;
            "  the strip is full and the box is stopped: give this job a longer strip, and load the image again (a line 'load') before the next job"
        ),
    }
}
