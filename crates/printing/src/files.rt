// What the program reads.
use crate::failure::Failure;
use hextext::read_words;
use std::io::Read;
use std::{fmt, fs, io};

// The bytes of a file; `-` is standard input.
pub fn bytes_of(rt: &HostRuntime, file: &str) -> io::Result<Vec<u8>> {
    if file != "-" {
        return fs::read(rt, file);
    }
    let mut bytes = Vec::new(rt.alloc());
    rt.stdin().read_to_end(&mut bytes)?;
    Ok(bytes)
}

// What is wrong with a file, as a failure that names it.
fn about<E: fmt::Display + Drop>(rt: &HostRuntime, file: &str, error: E) -> Failure {
    let name = if file == "-" { "standard input" } else { file };
    format!(in rt.alloc(); "{name}: {error}").map_or_else(Failure::from, Failure::Said)
}

// The words of the image in a file. The failure names the file, and the line and column of an error in its text.
pub fn image_of(rt: &HostRuntime, file: &str) -> Result<Vec<u32>, Failure> {
    let bytes = bytes_of(rt, file).map_err(|e| about(rt, file, e))?;
    read_words(rt.alloc(), bytes.as_slice()).map_err(|e| about(rt, file, e))
}

// The text of a file.
pub fn text_of(rt: &HostRuntime, file: &str) -> Result<String, Failure> {
    let bytes = bytes_of(rt, file).map_err(|e| about(rt, file, e))?;
    String::from_utf8(bytes).map_err(|_| {
        about(
            rt,
            file,
            "this is no text in UTF-8; an edition is plain text",
        )
    })
}
