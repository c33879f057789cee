// Tries on a real box what no theorem shows: the card's three runs, the rows of refusals that are tried and not proved (an image that is too
// long; a box that is empty or stopped; a job of the wrong length; a sheet that is too short), and what a refused call leaves.
#![tactic(auto)]

use card::card;
use labels::Stage;
use machine::strike::Strike;
use press_box::imprint_box::{ImprintBox, stage_box};
use std::io;

// What a strip or a sheet holds before a call, so that a change shows.
const BLANK: u32 = 255;

// A job, and what is given to a run beside it: fuel, a strip with room for so many strikes, and a sheet of so many words.
#[derive(Clone, Copy)]
struct Trial<'a> {
    job: &'a [u32],
    fuel: u32,
    room: usize,
    words: usize,
}

// The card's job, with just what it needs.
const WHOLE: Trial<'static> = Trial {
    job: &[7, 9],
    fuel: 6,
    room: 2,
    words: 2,
};

fn with_job(job: &[u32]) -> Trial<'_> {
    Trial { job, ..WHOLE }
}

// A box on which calls are tried.
#[derive(Drop)]
struct Bench<'a> {
    rt: &'a HostRuntime,
    press: ImprintBox<Stage>,
}

impl Bench<'_> {
    fn load(&mut self, what: &str, image: &[u32]) -> io::Result<()> {
        match self.press.load(image) {
            Ok(()) => println!(self.rt; "{what}: accepted"),
            Err(fault) => {
                let number = fault.number();
                let place = fault.place();
                println!(self.rt; "{what}: refused {number} at word {place}")
            }
        }
    }

    // A run, and all that strip and sheet hold afterwards.
    fn run(&mut self, what: &str, trial: Trial<'_>) -> io::Result<()> {
        let rt = self.rt;
        let blank = Strike {
            channel: 255,
            word: BLANK,
        };
        let mut strip = vec![in rt.alloc(); blank; trial.room]?;
        let mut sheet = vec![in rt.alloc(); BLANK; trial.words]?;
        match self.press.run(
            trial.job,
            trial.fuel,
            strip.as_mut_slice(),
            sheet.as_mut_slice(),
        ) {
            Ok(ran) => {
                let end = ran.end;
                let steps = ran.steps;
                let strikes = ran.strikes;
                print!(rt; "{what}: {end} after {steps} steps, {strikes} struck;")?;
            }
            Err(fault) => {
                let number = fault.number();
                print!(rt; "{what}: refused {number};")?;
            }
        }
        print!(rt; " strip")?;
        for strike in strip.iter() {
            print!(rt; " ({}, {})", strike.channel, strike.word)?;
        }
        print!(rt; "; sheet")?;
        for word in sheet.iter() {
            print!(rt; " {word}")?;
        }
        println!(rt; "")
    }
}

fn main(rt: HostRuntime) -> io::Result<()> {
    let mut bench = Bench {
        rt: &rt,
        press: stage_box(),
    };
    let card = card();
    bench.run("empty box", WHOLE)?;
    bench.load("the card", &card)?;
    bench.run("fuel 6", WHOLE)?;
    let longer = Trial {
        room: 3,
        words: 3,
        ..WHOLE
    };
    bench.run("longer strip and sheet", longer)?;
    bench.run("a job of one word", with_job(&[7]))?;
    bench.run("a job of three words", with_job(&[7, 9, 1]))?;
    bench.run("a sheet of one word", Trial { words: 1, ..WHOLE })?;
    bench.run("a strip of one record", Trial { room: 1, ..WHOLE })?;
    bench.run("stopped by it", WHOLE)?;
    let long = vec![in rt.alloc(); 0u32; 2049]?;
    bench.load("2,049 words", long.as_slice())?;
    bench.run("still stopped", WHOLE)?;
    bench.load("the card again", &card)?;
    bench.run("fuel 5", Trial { fuel: 5, ..WHOLE })?;
    bench.run(
        "stopped by it, and a job of one word",
        Trial {
            words: 1,
            ..with_job(&[7])
        },
    )?;
    bench.load("the card again", &card)?;
    bench.run("no fuel", Trial { fuel: 0, ..WHOLE })
}
