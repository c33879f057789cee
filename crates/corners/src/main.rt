// A page of images that the layout pass refuses, or just takes: each line of the input is an image and what it shows, behind a `#`.
#![tactic(auto)]

use hextext::read_words;
use std::io;
use std::io::{BufRead, BufReader};
use wording::LayoutVerdict;

fn judge(rt: &HostRuntime, line: &str) -> io::Result<()> {
    let title = line.split_once('#').map_or("", |(_, title)| title.trim());
    println!(rt; "{title}")?;
    match read_words(rt.alloc(), line.as_bytes()) {
        Ok(words) => println!(rt; "  {}", LayoutVerdict(words.as_slice())),
        Err(e) => println!(rt; "  {e}"),
    }
}

fn main(rt: HostRuntime) -> io::Result<()> {
    for line in BufReader::new(rt.alloc(), rt.stdin())?.lines(rt.alloc()) {
        judge(&rt, line?.as_str())?;
    }
    Ok(())
}
