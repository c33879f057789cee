ghost use Rattle.firmware.specs.Exported.{end_number, fault_after, load_number, report_after, run_number};
ghost use Rattle.press_box.specs.Refusals.{answered};
ghost use Rattle.press_box.specs.Runs.{run_answer};
ghost use Rattle.std.specs.Prelude.{◌≡◌};

use machine::ran::{End, Ran};
use press_box::fault::{LoadFault, Pass, RunFault};

// Numbers and no enums, since C reads them.

// A refusal of a load: its number, 1 to 12; the pass that refuses, 1 layout, 2 naming, 3 flow; the place of the word.
#[derive(Clone, Copy)]
#[repr(C)]
pub struct Fault {
    pub number: u8,
    pub pass: u8,
    pub place: usize,
}

// What a run answers: its end, 0 halted, 1 spent, 2 full; its steps; how many strikes stand on the strip.
#[derive(Clone, Copy)]
#[repr(C)]
pub struct Report {
    pub end: u8,
    pub steps: u32,
    pub strikes: usize,
}

// The answer of a load in numbers: 0, or the refusal's number, with the refusal written down.
pub(crate) fn tell_load(answer: Result<(), LoadFault>, fault: &mut Fault) -> u8
    ensures number { result ≡ load_number (answered answer) }
    ensures fault { fault.new ≡ fault_after (answered answer) fault.old }
{
    let Err(refusal) = answer else {
        return 0;
    };
    let pass = match refusal.pass() {
        Pass::Layout => 1,
        Pass::Naming => 2,
        Pass::Flow => 3,
    };
    *fault = Fault {
        number: refusal.number(),
        pass,
        place: refusal.place(),
    };
    refusal.number()
}

// The answer of a run in numbers: 0 with a report, or the refusal's number.
pub(crate) fn tell_run(answer: Result<Ran, RunFault>, report: &mut Report) -> u8
    ensures number { result ≡ run_number (run_answer answer) }
    ensures report { report.new ≡ report_after (run_answer answer) report.old }
{
    match answer {
        Err(refusal) => refusal.number(),
        Ok(ran) => {
            *report = Report {
                end: end_number(ran.end),
                steps: ran.steps,
                strikes: ran.strikes,
            };
            0
        }
    }
}

fn end_number(end: End) -> u8
    ensures { result ≡ end_number end }
{
    match end {
        End::Halted => 0,
        End::Spent => 1,
        End::Full => 2,
    }
}
