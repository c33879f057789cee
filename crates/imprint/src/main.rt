// The program that people run: it reads an image as text, lists its items, and says why an image is refused. What it knows of images
// is in the libraries below it; here are only the arguments, the files and the printing.
#![tactic(auto)]

mod judge;
mod kind;
mod usage;

use crate::judge::Judge;
use crate::kind::{KINDS, KindName};
use crate::usage::USAGE;
use image::items::Items;
use labels::{LabelKind, MastheadSet, Pair, Stage};
use printing::{Failure, image_of};
use std::alloc::Global;
use std::env;
use std::process::ExitCode;
use wording::{ItemLines, LayoutVerdict};

// A call of the program.
#[derive(Clone, Copy)]
enum Command<'a> {
    Help,
    Items(&'a str),
    Check(KindName, &'a [String]),
}

// The command that the arguments behind the program's name spell.
fn asked_for<'a>(heap: Global, args: &'a [String]) -> Result<Command<'a>, Failure> {
    let [name, operands @ ..] = args else {
        return Ok(Command::Help);
    };
    match (name.as_str(), operands) {
        ("--help" | "-h" | "help", _) => Ok(Command::Help),
        ("items", [file]) => Ok(Command::Items(file.as_str())),
        ("items", _) => mistaken(
            heap,
            "'imprint items' takes one file, or - for standard input",
        ),
        ("check", [kind, files @ ..]) if !files.is_empty() => {
            Ok(Command::Check(kind_named(heap, kind.as_str())?, files))
        }
        ("check", _) => mistaken(
            heap,
            "'imprint check' takes a label kind and at least one file, or - for standard input",
        ),
        (name, _) => Err(Failure::Said(format!(in heap;
            "no command '{name}'; 'imprint --help' lists what there is"
        )?)),
    }
}

// A call that is not as the command wants it.
fn mistaken<'a>(heap: Global, text: &str) -> Result<Command<'a>, Failure> {
    Err(Failure::Said(String::from_str(heap, text)?))
}

fn kind_named(heap: Global, name: &str) -> Result<KindName, Failure> {
    match name.parse() {
        Ok(kind) => Ok(kind),
        Err(_) => Err(Failure::Said(format!(in heap;
            "no label kind '{name}'; the kinds are {KINDS}"
        )?)),
    }
}

// `imprint items`: the items as far as they go, and then the summary or the refusal.
fn list_items(rt: &HostRuntime, file: &str) -> Result<(), Failure> {
    let words = image_of(rt, file)?;
    for item in Items::of(words.as_slice()) {
        print!(rt; "{}", ItemLines(item))?;
    }
    println!(rt; "{}", LayoutVerdict(words.as_slice()))?;
    Ok(())
}

// `imprint check`: one verdict a file, by a box for the kind. Each kind is a type of its own, so each name has a call of its own.
fn check_files(rt: &HostRuntime, kind: KindName, files: &[String]) -> Result<(), Failure> {
    match kind {
        KindName::Stage => judge_all(rt, Stage, files),
        KindName::Mastheads => judge_all(rt, MastheadSet, files),
        KindName::StageMastheads => judge_all(rt, Pair::new(Stage, MastheadSet), files),
        KindName::MastheadsStage => judge_all(rt, Pair::new(MastheadSet, Stage), files),
        KindName::StageStage => judge_all(rt, Pair::new(Stage, Stage), files),
        KindName::MastheadsMastheads => judge_all(rt, Pair::new(MastheadSet, MastheadSet), files),
    }
}

fn judge_all<K: LabelKind + Drop>(
    rt: &HostRuntime,
    kind: K,
    files: &[String],
) -> Result<(), Failure> {
    Judge::new(rt, kind).all(files)
}

fn run(rt: &HostRuntime) -> Result<(), Failure> {
    let args: Vec<String> = env::args(rt)?.skip(1).collect(rt.alloc())?;
    match asked_for(rt.alloc(), args.as_slice())? {
        Command::Help => {
            print!(rt; "{USAGE}")?;
            Ok(())
        }
        Command::Items(file) => list_items(rt, file),
        Command::Check(kind, files) => check_files(rt, kind, files),
    }
}

fn main(rt: HostRuntime) -> ExitCode {
    match run(&rt) {
        Ok(()) => ExitCode::SUCCESS,
        Err(failure) => {
            let _ = eprintln!(rt; "imprint: {failure}");
            ExitCode::FAILURE
        }
    }
}
