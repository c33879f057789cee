// Reads a line of an edition, the list of jobs that a press engineer has run on one image: `job`, with a name and its settings, or
// `load`. `#` starts a comment. What every line says, and which error answers, is the definition `reading` in specs/Lines.antt;
// `read_line` is proved to answer that.
#![tactic(auto)]

ghost use Rattle.std.specs.Prelude.{◌≡◌, [], Ok, MatchResult};
ghost use Rattle.edition.specs.Cursor.{size, to_come};
ghost use Rattle.edition.specs.Lines.{Refuses, job_from, said_by};
ghost use Rattle.edition.specs.Reading.{EntryRead, Reads, with_heading};

pub use entry::{Entry, Job};
pub use errors::{LineError, Part};
use fields::{Field, Fields};
pub use setting::{PRESS_MEMORY, Setting};

pub mod entry;
pub mod errors;
mod fields;
mod numbers;
mod reader;
pub mod setting;

// What `line` is for, or its first error. A job's words are left in `words`, which is empty behind any other answer. `Memory` is
// the one answer that the line does not fix.
pub fn read_line<'a>(line: &'a [u8], words: &mut Vec<u32>) -> Result<Entry<'a>, LineError>
    ensures { Reads line.now result words.new.items }
{
    words.clear();
    let read = entry_in(Fields::of(line), words);
    if read.is_err() {
        words.clear();
    }
    read
}

// What a line with these fields is for.
fn entry_in<'a>(mut fields: Fields<'a>, words: &mut Vec<u32>) -> Result<Entry<'a>, LineError>
    requires { words.old.items ≡ [] }
    ensures { MatchResult result (λ e. EntryRead (said_by (size fields.entry) (to_come fields.entry)) e words.new.items) (Refuses (said_by (size fields.entry) (to_come fields.entry))) }
{
    let Some(command) = fields.next() else {
        return Ok(Entry::Nothing);
    };
    match command.bytes {
        b"load" => match fields.next() {
            None => Ok(Entry::Load),
            Some(Field { column, .. }) => Err(LineError::Surplus { column }),
        },
        b"job" => Ok(Entry::Job(job_in(fields, words)?)),
        _ => Err(LineError::Unexpected {
            column: command.column,
            part: Part::Command,
        }),
    }
}

// The job whose name and settings these fields are. Its words are left in `words`.
fn job_in<'a>(mut fields: Fields<'a>, words: &mut Vec<u32>) -> Result<Job<'a>, LineError>
    requires { words.old.items ≡ [] }
    ensures { MatchResult result (λ j. job_from (size fields.entry) (to_come fields.entry) ≡ Ok (with_heading j words.new.items)) (Refuses (job_from (size fields.entry) (to_come fields.entry))) }
{
    let name = fields.wanted(Part::Name)?;
    let fuel = fields.setting(Setting::Fuel)?;
    let strip = fields.setting(Setting::Strip)?;
    let sheet = fields.setting(Setting::Sheet)?;
    fields.keyword(Setting::Words)?;
    fields.words(words)?;
    Ok(Job {
        name: name.bytes,
        fuel,
        strip: strip as usize,
        sheet: sheet as usize,
    })
}

#[cfg(test)]
mod tests {
    use super::*;
    use std::alloc::{AllocError, Global};
    use std::test::Fail;

    // The answer for the line and the words beside it, or the error's sentence.
    fn answer(heap: Global, line: &str) -> Result<String, AllocError> {
        let mut words = Vec::new(heap);
        match read_line(line.as_bytes(), &mut words) {
            Ok(entry) => format!(in heap; "{entry:?} {words:?}"),
            Err(e) => format!(in heap; "{e}"),
        }
    }

    #[test]
    fn reads_lines(rt: HostRuntime) -> Result<(), Fail> {
        let lines = [
            ("", "Nothing []"),
            (" \t# load", "Nothing []"),
            ("load # again", "Load []"),
            (
                "job a fuel 6 strip 2 sheet 0 words",
                "Job(Job { name: [97], fuel: 6, strip: 2, sheet: 0 }) []",
            ),
            (
                "job b fuel 0xfF strip 65536 sheet 0x10000 words 4294967295 007\t0x0#1",
                "Job(Job { name: [98], fuel: 255, strip: 65536, sheet: 65536 }) [4294967295, 7, 0]",
            ),
            ("  Load", "column 3: expected 'load' or 'job'"),
            ("load now", "column 6: 'load' stands alone on its line"),
            (
                "job #1 fuel 1",
                "column 5: the line ends, expected the job's name",
            ),
            ("job a fule 6", "column 7: expected the keyword 'fuel'"),
            (
                "job a fuel x6",
                "column 12: expected a number for 'fuel', in decimal or as 0x and hexadecimal digits",
            ),
            (
                "job a fuel 6 strip 65537",
                "column 20: the number for 'strip' is too large, at most 65536",
            ),
            (
                "job a fuel 6 strip 2 ",
                "column 22: the line ends, expected the keyword 'sheet'",
            ),
        ];
        for (line, expected) in lines {
            assert_eq!(rt; answer(rt.alloc(), line)?.as_str(), expected);
        }
        Ok(())
    }
}
