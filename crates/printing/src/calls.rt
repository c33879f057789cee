// The two calls on a box, as a printing and a comparison make them.
use crate::lines::JobCall;
use crate::record::{PassText, RunRefusal};
use labels::LabelKind;
use machine::ran::End;
use machine::strike::Strike;
use press_box::fault::RunFault;
use press_box::imprint_box::ImprintBox;
use std::alloc::{AllocError, Global};
use std::io;
use wording::Several;

// What a job came to that the box ran: its end, how many steps it took, its strikes, and its sheet.
#[derive(Drop)]
pub struct Printed {
    pub end: End,
    pub steps: u32,
    pub strikes: Vec<Strike>,
    pub sheet: Vec<u32>,
}

// Loads the image, and says what the box answers.
pub fn load<K: LabelKind>(
    rt: &HostRuntime,
    press: &mut ImprintBox<K>,
    name: &str,
    image: &[u32],
) -> io::Result<()> {
    match press.load(image) {
        Ok(()) => {
            let size = Several(image.len(), "word");
            println!(rt; "{name}: accepted, {size}")
        }
        Err(fault) => {
            let number = fault.number();
            let place = fault.place();
            let pass = PassText(fault.pass());
            println!(rt;
                "{name}: refused {number} at word {place}, {pass}; 'imprint check' says why"
            )
        }
    }
}

// Runs the job, with a blank strip and a blank sheet as long as it asks. A refusal has what was given beside what the image asks.
pub fn run<K: LabelKind>(
    heap: Global,
    press: &mut ImprintBox<K>,
    call: &JobCall<'_>,
) -> Result<Result<Printed, RunRefusal>, AllocError> {
    let job = call.job;
    let blank = Strike {
        channel: 0,
        word: 0,
    };
    let mut strikes = vec![in heap; blank; job.strip]?;
    let mut sheet = vec![in heap; 0u32; job.sheet]?;
    match press.run(
        call.words,
        job.fuel,
        strikes.as_mut_slice(),
        sheet.as_mut_slice(),
    ) {
        Ok(ran) => {
            strikes.truncate(ran.strikes);
            Ok(Ok(Printed {
                end: ran.end,
                steps: ran.steps,
                strikes,
                sheet,
            }))
        }
        Err(fault) => Ok(Err(refusal(press, fault, call))),
    }
}

// The refusal, with the lengths that it speaks of.
fn refusal<K: LabelKind>(press: &ImprintBox<K>, fault: RunFault, call: &JobCall<'_>) -> RunRefusal {
    match fault {
        RunFault::Empty => RunRefusal::Empty,
        RunFault::Stopped => RunRefusal::Stopped,
        RunFault::JobLength => RunRefusal::JobLength {
            given: call.words.len(),
            asked: press.job_length(),
        },
        RunFault::SheetTooShort => RunRefusal::SheetTooShort {
            given: call.job.sheet,
            asked: press.cell_count(),
        },
    }
}
