// What a line of an edition is for.

// A job: its name as the line has it, its fuel, and how many words its strip and its sheet have.
#[derive(Clone, Copy, Debug)]
pub struct Job<'a> {
    pub name: &'a [u8],
    pub fuel: u32,
    pub strip: usize,
    pub sheet: usize,
}

#[derive(Clone, Copy, Debug)]
pub enum Entry<'a> {
    // an empty line, or a comment
    Nothing,
    // the engineer loads the image again
    Load,
    Job(Job<'a>),
}
