// `imprint check`: a box that judges one image after the other, and prints a verdict for each.
use explain::{FlowRefusal, NamingRefusal};
use flow::{FlowFault, stuck_at};
use hextext::{TextError, read_words};
use image::items::survey;
use labels::LabelKind;
use naming::fault::NamingFault;
use press_box::fault::LoadFault;
use press_box::imprint_box::ImprintBox;
use printing::{Failure, image_of};
use programme::laid_out::LaidOut;
use std::io::{BufRead, BufReader};
use std::{fmt, io};
use wording::{LayoutRefusal, Several};

// The box, and how many texts were no image so far.
#[derive(Drop)]
pub struct Judge<'a, K> {
    rt: &'a HostRuntime,
    press: ImprintBox<K>,
    passed_over: usize,
}

impl<'a, K: LabelKind> Judge<'a, K> {
    pub fn new(rt: &'a HostRuntime, kind: K) -> Judge<'a, K> {
        Judge {
            rt,
            press: ImprintBox::new(kind),
            passed_over: 0,
        }
    }

    // What is no image is reported and passed over; the call then ends with a failure.
    pub fn all(&mut self, files: &[String]) -> Result<(), Failure> {
        for file in files {
            match file.as_str() {
                "-" => self.lines()?,
                file => self.file(file)?,
            }
        }
        if self.passed_over == 0 {
            return Ok(());
        }
        let texts = Several(self.passed_over, "text");
        Err(Failure::Said(format!(in self.rt.alloc(); "no image in {texts}")?))
    }

    fn file(&mut self, file: &str) -> io::Result<()> {
        match image_of(self.rt, file) {
            Ok(words) => self.judge(file, words.as_slice()),
            Err(failure) => self.pass_over(failure),
        }
    }

    // Standard input: an image on each line.
    fn lines(&mut self) -> Result<(), Failure> {
        let rt = self.rt;
        let lines = BufReader::new(rt.alloc(), rt.stdin())?.lines(rt.alloc());
        for (number, line) in (1..).zip(lines) {
            match read_words(rt.alloc(), line?.as_bytes()) {
                Ok(words) => {
                    let name = format!(in rt.alloc(); "line {number}")?;
                    self.judge(name.as_str(), words.as_slice())?;
                }
                Err(e) => {
                    let e = on_line(number, e);
                    self.pass_over(format_args!("standard input: {e}"))?;
                }
            }
        }
        Ok(())
    }

    fn pass_over<T: fmt::Display + Drop>(&mut self, why: T) -> io::Result<()> {
        self.passed_over = self.passed_over.saturating_add(1);
        eprintln!(self.rt; "imprint: {why}")
    }

    // One image: what the box answers.
    fn judge(&mut self, name: &str, image: &[u32]) -> io::Result<()> {
        match self.press.load(image) {
            Ok(()) => {
                let size = image.len();
                println!(self.rt; "{name}: accepted, {size} words")
            }
            Err(LoadFault::Layout(fault)) => {
                let seen = survey(image);
                println!(self.rt; "{name}: {}", LayoutRefusal { image, fault, seen })
            }
            Err(LoadFault::Naming(fault)) => self.refuse_names(name, image, fault),
            Err(LoadFault::Flow(fault)) => self.refuse_flow(name, image, fault),
        }
    }

    // A refusal by the naming pass.
    fn refuse_names(&self, name: &str, words: &[u32], fault: NamingFault) -> io::Result<()> {
        let Ok(image) = LaidOut::check(words) else {
            return println!(self.rt; "{name}: refused, naming");
        };
        let labels = self.press.kind().count();
        let refusal = NamingRefusal {
            image,
            fault,
            labels,
        };
        println!(self.rt; "{name}: {refusal}")
    }

    // A refusal by the flow pass.
    fn refuse_flow(&self, name: &str, words: &[u32], fault: FlowFault) -> io::Result<()> {
        let kind = self.press.kind();
        let Ok(image) = LaidOut::check(words) else {
            return println!(self.rt; "{name}: refused, flow");
        };
        let Some(stuck) = stuck_at(kind, image, fault.place) else {
            return println!(self.rt; "{name}: refused, flow");
        };
        let refusal = FlowRefusal {
            kind,
            image,
            fault,
            stuck: &stuck,
        };
        println!(self.rt; "{name}: {refusal}")
    }
}

// An error of a line of its own, as one of the line of this number.
fn on_line(line: usize, e: TextError) -> TextError {
    match e {
        TextError::BadCharacter { column, byte, .. } => {
            TextError::BadCharacter { line, column, byte }
        }
        TextError::WordTooLong { column, .. } => TextError::WordTooLong { line, column },
        TextError::Memory => TextError::Memory,
    }
}
