// What a programme gives out while it runs: a record of a channel's number and a word.
#[derive(Clone, Copy, PartialEq, Eq, Debug)]
#[repr(C)]
pub struct Strike {
    pub channel: u8,
    pub word: u32,
}
