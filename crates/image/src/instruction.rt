ghost use Rattle.image.specs.Instructions.{inner_of, closing_of, instruction_of, instruction_word};
ghost use Rattle.std.specs.Prelude.{◌≡◌};

use crate::word::Word;

// An instruction with its operands: registers, slots, cells, tuples, blocks and channels by number.
#[derive(Clone, Copy)]
pub enum Instruction {
    SetNumber { to: u8, value: u16 },
    SetTuple { to: u8, tuple: u8 },
    SetBlock { to: u8, block: u8 },
    Copy { to: u8, from: u8 },
    Add { to: u8, left: u8, right: u8 },
    Subtract { to: u8, left: u8, right: u8 },
    Fetch { to: u8, pointer: u8, cell: u8 },
    Store { pointer: u8, from: u8, cell: u8 },
    Push { count: u8 },
    Pop { count: u8 },
    Peek { to: u8, slot: u8 },
    Poke { from: u8, slot: u8 },
    Strike { channel: u8, from: u8 },
    Branch { test: u8, target: u8 },
    Raise { label: u8, postdominator: u8 },
    Jump { target: u8 },
    Lower { block: u8 },
    Halt,
}

impl Instruction {
    // The instruction that a word is by its kind: the last word of a block, and no other, is one that ends it. No `TryFrom`, which takes
    // the word alone.
    pub fn decode(last: bool, w: Word) -> Option<Instruction>
        ensures { result ≡ instruction_of last w }
    {
        match w.kind {
            0x30..=0x32 if last => Instruction::decode_closing(w),
            0x20..=0x2E if !last => Instruction::decode_inner(w),
            _ => None,
        }
    }

    fn decode_closing(w: Word) -> Option<Instruction>
        ensures { result ≡ closing_of w }
    {
        match w.kind {
            0x30 => Some(Instruction::Jump { target: w.a }),
            0x31 => Some(Instruction::Lower { block: w.c }),
            0x32 => Some(Instruction::Halt),
            _ => None,
        }
    }

    fn decode_inner(w: Word) -> Option<Instruction>
        ensures { result ≡ inner_of w }
    {
        let Word { kind, a, b, c } = w;
        let value = u16::from_be_bytes([b, c]);
        match kind {
            0x20 => Some(Instruction::SetNumber { to: a, value }),
            0x21 => Some(Instruction::SetTuple { to: a, tuple: c }),
            0x22 => Some(Instruction::SetBlock { to: a, block: c }),
            0x23 => Some(Instruction::Copy { to: a, from: b }),
            0x24 => Some(Instruction::Add {
                to: a,
                left: b,
                right: c,
            }),
            0x25 => Some(Instruction::Fetch {
                to: a,
                pointer: b,
                cell: c,
            }),
            0x26 => Some(Instruction::Store {
                pointer: a,
                from: b,
                cell: c,
            }),
            0x27 => Some(Instruction::Push { count: c }),
            0x28 => Some(Instruction::Pop { count: c }),
            0x29 => Some(Instruction::Peek { to: a, slot: c }),
            0x2A => Some(Instruction::Poke { from: b, slot: c }),
            0x2B => Some(Instruction::Strike {
                channel: a,
                from: b,
            }),
            0x2C => Some(Instruction::Branch { test: a, target: b }),
            0x2D => Some(Instruction::Raise {
                label: a,
                postdominator: c,
            }),
            0x2E => Some(Instruction::Subtract {
                to: a,
                left: b,
                right: c,
            }),
            _ => None,
        }
    }
}

// How the instruction is written: every field that it does not name is zero.
impl From<Instruction> for Word {
    ghost from_gives = { λ instruction w. w ≡ instruction_word instruction };

    fn from(instruction: Instruction) -> Word {
        match instruction {
            Instruction::SetNumber { to, value } => {
                let [high, low] = value.to_be_bytes();
                Word::new(0x20, to, high, low)
            }
            Instruction::SetTuple { to, tuple } => Word::new(0x21, to, 0, tuple),
            Instruction::SetBlock { to, block } => Word::new(0x22, to, 0, block),
            Instruction::Copy { to, from } => Word::new(0x23, to, from, 0),
            Instruction::Add { to, left, right } => Word::new(0x24, to, left, right),
            Instruction::Fetch { to, pointer, cell } => Word::new(0x25, to, pointer, cell),
            Instruction::Store {
                pointer,
                from,
                cell,
            } => Word::new(0x26, pointer, from, cell),
            Instruction::Push { count } => Word::new(0x27, 0, 0, count),
            Instruction::Pop { count } => Word::new(0x28, 0, 0, count),
            Instruction::Peek { to, slot } => Word::new(0x29, to, 0, slot),
            Instruction::Poke { from, slot } => Word::new(0x2A, 0, from, slot),
            Instruction::Strike { channel, from } => Word::new(0x2B, channel, from, 0),
            Instruction::Branch { test, target } => Word::new(0x2C, test, target, 0),
            Instruction::Raise {
                label,
                postdominator,
            } => Word::new(0x2D, label, 0, postdominator),
            Instruction::Subtract { to, left, right } => Word::new(0x2E, to, left, right),
            Instruction::Jump { target } => Word::new(0x30, target, 0, 0),
            Instruction::Lower { block } => Word::new(0x31, 0, 0, block),
            Instruction::Halt => Word::new(0x32, 0, 0, 0),
        }
    }
}
