// The lines of an edition that say something.
use crate::failure::Failure;
use edition::{Entry, Job, read_line};
use std::alloc::Global;

// A job with its words.
#[derive(Clone, Copy)]
pub struct JobCall<'a> {
    pub job: Job<'a>,
    pub words: &'a [u32],
}

impl<'a> JobCall<'a> {
    // The job's name, which is a part of a line.
    pub fn name(&self) -> &'a str {
        std::str::from_utf8(self.job.name).unwrap_or("?")
    }
}

// A call on a box.
#[derive(Clone, Copy)]
pub enum Call<'a> {
    Load,
    Job(JobCall<'a>),
}

// A line that asks for a call, and its number. Its words are read when the call is made, so that a long edition takes no memory for all
// of its jobs at once.
#[derive(Clone, Copy)]
pub struct Line<'a> {
    pub number: usize,
    text: &'a str,
}

impl<'a> Line<'a> {
    // The call. A job's words are left in `words`. The line was read before, so that it can fail by want of memory alone.
    pub fn call<'w>(self, words: &'w mut Vec<u32>) -> Result<Call<'w>, Failure>
    where
        'a: 'w,
    {
        match read_line(self.text.as_bytes(), words) {
            Ok(Entry::Load) => Ok(Call::Load),
            Ok(Entry::Job(job)) => Ok(Call::Job(JobCall {
                job,
                words: words.as_slice(),
            })),
            Ok(Entry::Nothing) | Err(_) => Err(Failure::Memory),
        }
    }
}

// The lines that are for a job or a load. Every line is read, so that an edition with an error in it is not begun: the failure names the
// file, the line and the column.
pub fn lines_of<'a>(heap: Global, file: &str, text: &'a str) -> Result<Vec<Line<'a>>, Failure> {
    let mut lines = Vec::new(heap);
    let mut words = Vec::new(heap);
    for (number, text) in (1..).zip(text.lines()) {
        match read_line(text.as_bytes(), &mut words) {
            Ok(Entry::Nothing) => {}
            Ok(Entry::Load | Entry::Job(_)) => lines.push(Line { number, text })?,
            Err(e) => return Err(Failure::Said(format!(in heap; "{file}: line {number}, {e}")?)),
        }
    }
    Ok(lines)
}
