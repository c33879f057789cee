// Runs two editions of one puzzle, each on a box of its own, and prints what a reader sees on each side.
use crate::calls::{load, run};
use crate::failure::Failure;
use crate::files::{image_of, text_of};
use crate::lines::{Call, JobCall, Line, lines_of};
use crate::record::StrikesText;
use labels::LabelKind;
use machine::ran::End;
use machine::strike::Strike;
use press_box::imprint_box::ImprintBox;
use programme::laid_out::LaidOut;
use readers::agreement::{Agreement, compare};
use readers::sight::Reader;
use std::alloc::{AllocError, Global};
use std::{fmt, io};
use wording::Several;

// One side: its box, and what the reader has seen since the latest accepted load.
#[derive(Drop)]
struct Side<K> {
    name: &'static str,
    press: ImprintBox<K>,
    seen: Vec<Strike>,
}

// What a run that halted left: the strikes that the reader saw of it, and the sheet.
#[derive(Drop)]
struct Halted {
    seen: Vec<Strike>,
    sheet: Vec<u32>,
}

// How often the two editions differ in what the reader may see, or in a length, so that the promise does not speak of them; and how often
// the reader could tell the two sides apart.
#[derive(Clone, Copy, Default)]
struct Findings {
    jobs: usize,
    warnings: usize,
    apart: usize,
}

impl Findings {
    // A reason why the promise does not speak of the present jobs.
    fn warn<T: fmt::Display + Drop>(&mut self, rt: &HostRuntime, text: T) -> io::Result<()> {
        self.warnings = self.warnings.saturating_add(1);
        println!(rt; "  warning: {text}")
    }

    // A way to tell the two sides apart.
    fn note_apart<T: fmt::Display + Drop>(&mut self, rt: &HostRuntime, text: T) -> io::Result<()> {
        self.apart = self.apart.saturating_add(1);
        println!(rt; "  APART: {text}")
    }
}

// The two printings under way, for one reader.
#[derive(Drop)]
struct Comparison<'a, K> {
    rt: &'a HostRuntime,
    reader: u8,
    one: Side<K>,
    two: Side<K>,
    findings: Findings,
}

// Runs two editions of one image side by side, and says what the reader sees on each side and whether one is a beginning of the other.
pub fn compare_editions<K: LabelKind + Copy>(
    rt: &HostRuntime,
    kind: K,
    image: &str,
    reader: u8,
    first: &str,
    second: &str,
) -> Result<(), Failure> {
    let words = image_of(rt, image)?;
    let first_text = text_of(rt, first)?;
    let second_text = text_of(rt, second)?;
    let first_lines = lines_of(rt.alloc(), first, first_text.as_str())?;
    let second_lines = lines_of(rt.alloc(), second, second_text.as_str())?;
    let mut comparison = Comparison {
        rt,
        reader,
        one: Side::new(rt.alloc(), "first", kind),
        two: Side::new(rt.alloc(), "second", kind),
        findings: Findings::default(),
    };
    comparison.load(image, words.as_slice())?;
    for (x, y) in first_lines.iter().zip(second_lines.iter()) {
        comparison.go_on(*x, *y, words.as_slice())?;
    }
    if first_lines.len() != second_lines.len() {
        let n = Several(first_lines.len(), "line");
        let m = Several(second_lines.len(), "line");
        return Err(Failure::Said(format!(in rt.alloc();
            "{first} has {n} and {second} has {m}; two printings go through the same calls, and the rest is left out"
        )?));
    }
    comparison.conclude()?;
    Ok(())
}

impl<K: LabelKind> Side<K> {
    fn new(heap: Global, name: &'static str, kind: K) -> Side<K> {
        Side {
            name,
            press: ImprintBox::new(kind),
            seen: Vec::new(heap),
        }
    }

    // A reader of this label before the image on the box, if there is one.
    fn reader(&self, label: u8) -> Option<Reader<'_, '_, K>> {
        let image = LaidOut::check(self.press.image()).ok()?;
        Some(Reader {
            kind: self.press.kind(),
            image,
            label,
        })
    }

    // Runs the job, and says what the reader sees of it; answers what it left if it halted.
    fn run(
        &mut self,
        rt: &HostRuntime,
        reader: u8,
        call: &JobCall<'_>,
    ) -> Result<Option<Halted>, Failure> {
        let name = self.name;
        match run(rt.alloc(), &mut self.press, call)? {
            Err(refusal) => {
                println!(rt; "  {name}: {refusal}")?;
                Ok(None)
            }
            Ok(printed) => {
                let seen = self.sight(rt.alloc(), reader, printed.strikes.as_slice())?;
                self.seen.extend_from_slice(seen.as_slice())?;
                let end = printed.end;
                let strikes = StrikesText(seen.as_slice());
                println!(rt; "  {name}: {end}; the reader sees {strikes}")?;
                let sheet = printed.sheet;
                Ok(match printed.end {
                    End::Halted => Some(Halted { seen, sheet }),
                    End::Spent | End::Full => None,
                })
            }
        }
    }

    // Those of the strikes that the reader may see.
    fn sight(
        &self,
        heap: Global,
        reader: u8,
        strikes: &[Strike],
    ) -> Result<Vec<Strike>, AllocError> {
        match self.reader(reader) {
            Some(reader) => reader.seen(heap, strikes),
            None => Ok(Vec::new(heap)),
        }
    }
}

impl<K: LabelKind> Comparison<'_, K> {
    // One call on both sides.
    fn go_on(&mut self, x: Line<'_>, y: Line<'_>, image: &[u32]) -> Result<(), Failure> {
        let mut first_words = Vec::new(self.rt.alloc());
        let mut second_words = Vec::new(self.rt.alloc());
        match (x.call(&mut first_words)?, y.call(&mut second_words)?) {
            (Call::Job(a), Call::Job(b)) => self.run(&a, &b),
            (Call::Load, Call::Load) => Ok(self.load("load", image)?),
            (Call::Job(_), Call::Load) | (Call::Load, Call::Job(_)) => {
                let n = x.number;
                let m = y.number;
                Err(Failure::Said(format!(in self.rt.alloc();
                    "line {n} of the first edition is a job and line {m} of the second a load, or the other way round; two printings go through the same calls"
                )?))
            }
        }
    }

    // An accepted load begins anew what the reader has seen.
    fn load(&mut self, name: &str, image: &[u32]) -> io::Result<()> {
        load(self.rt, &mut self.one.press, name, image)?;
        if self.two.press.load(image).is_ok() {
            self.one.seen.clear();
            self.two.seen.clear();
        }
        Ok(())
    }

    fn run(&mut self, a: &JobCall<'_>, b: &JobCall<'_>) -> Result<(), Failure> {
        let name = a.name();
        let other = b.name();
        println!(self.rt; "jobs {name} and {other}")?;
        self.findings.jobs = self.findings.jobs.saturating_add(1);
        self.weigh_jobs(a, b)?;
        let x = self.one.run(self.rt, self.reader, a)?;
        let y = self.two.run(self.rt, self.reader, b)?;
        self.tell_apart()?;
        if let (Some(x), Some(y)) = (x, y) {
            self.tell_halted_apart(&x, &y)?;
        }
        Ok(())
    }

    // Says where the two jobs differ in what the reader may see, or in a length.
    fn weigh_jobs(&mut self, a: &JobCall<'_>, b: &JobCall<'_>) -> Result<(), Failure> {
        let rt = self.rt;
        let n = a.words.len();
        let m = b.words.len();
        let sheet = a.job.sheet;
        let other_sheet = b.job.sheet;
        if n != m {
            self.findings
                .warn(rt, format_args!("the jobs have {n} and {m} words"))?;
        }
        if sheet != other_sheet {
            self.findings.warn(
                rt,
                format_args!("the sheets have {sheet} and {other_sheet} words"),
            )?;
        }
        let clash = self.clash(
            |reader, heap, xs, ys| reader.first_job_clash(heap, xs, ys),
            a.words,
            b.words,
        )?;
        if let Some(at) = clash {
            self.findings.warn(
                rt,
                format_args!(
                    "the jobs differ in word {at}, counted from 0, which the reader may see"
                ),
            )?;
        }
        Ok(())
    }

    // Says how the two sides stand to the reader after a run.
    fn tell_apart(&mut self) -> io::Result<()> {
        let rt = self.rt;
        match compare(self.one.seen.as_slice(), self.two.seen.as_slice()) {
            Agreement::Same => println!(rt; "  the same on both sides since the load"),
            Agreement::FirstBegins => {
                println!(rt; "  since the load, the first is a beginning of the second")
            }
            Agreement::SecondBegins => {
                println!(rt; "  since the load, the second is a beginning of the first")
            }
            Agreement::Apart { at } => self.findings.note_apart(
                rt,
                format_args!(
                    "since the load, at the record {at} that the reader sees, counted from 0"
                ),
            ),
        }
    }

    // The same where both jobs halted.
    fn tell_halted_apart(&mut self, x: &Halted, y: &Halted) -> Result<(), Failure> {
        let rt = self.rt;
        if compare(x.seen.as_slice(), y.seen.as_slice()) != Agreement::Same {
            self.findings.note_apart(
                rt,
                "both jobs halted, and the reader sees other strikes of them",
            )?;
        }
        let clash = self.clash(
            |reader, heap, xs, ys| reader.first_cell_clash(heap, xs, ys),
            x.sheet.as_slice(),
            y.sheet.as_slice(),
        )?;
        if let Some(at) = clash {
            self.findings.note_apart(
                rt,
                format_args!("both jobs halted, and cell {at}, which the reader may see, differs"),
            )?;
        }
        Ok(())
    }

    // What the reader's search finds, if the boxes hold an image: the first place of the two lists that the reader may see and that
    // differs.
    fn clash<F>(&self, search: F, xs: &[u32], ys: &[u32]) -> Result<Option<usize>, AllocError>
    where
        F: FnOnce(Reader<'_, '_, K>, Global, &[u32], &[u32]) -> Result<Option<usize>, AllocError>,
        requires { F.IsAlwaysCallable search }
    {
        match self.one.reader(self.reader) {
            Some(reader) => search(reader, self.rt.alloc(), xs, ys),
            None => Ok(None),
        }
    }

    fn conclude(&self) -> io::Result<()> {
        let rt = self.rt;
        let reader = self.reader;
        let jobs = Several(self.findings.jobs, "pair");
        let warnings = Several(self.findings.warnings, "warning");
        print!(rt; "compare: {jobs} of jobs, {warnings}: ")?;
        match (self.findings.apart, self.findings.warnings) {
            (0, _) => println!(rt; "reader {reader} cannot tell the two printings apart"),
            (_, 0) => println!(rt;
                "reader {reader} can tell the two printings apart, against the promise: keep these files and report it"
            ),
            _ => println!(rt;
                "reader {reader} can tell the two printings apart; the warnings say why the promise does not speak of them"
            ),
        }
    }
}
