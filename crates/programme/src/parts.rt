use image::head::Context;

// The parts of a programme as an image spells them: each number decoded, and the words behind the head as they stand.

// A shape: a type word for each cell.
#[derive(Clone, Copy)]
pub struct Shape<'a> {
    pub types: &'a [u32],
}

// A signature: its flow context, and a type word for each of the eight registers, then for each slot, the top one first.
#[derive(Clone, Copy)]
pub struct SignatureWords<'a> {
    pub context: Context,
    pub types: &'a [u32],
}

// A tuple: the number of its shape, and a plain word for each cell.
#[derive(Clone, Copy)]
pub struct TupleWords<'a> {
    pub shape: u8,
    pub words: &'a [u32],
}

// A block: the number of its signature, and its instruction words.
#[derive(Clone, Copy)]
pub struct BlockWords<'a> {
    pub signature: u8,
    pub words: &'a [u32],
}
