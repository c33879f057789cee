ghost use Rattle.std.specs.Prelude.{◌≡◌, ◌<◌, [], replicate, slice_index, slice_set};
ghost use Rattle.rows.specs.Rows.{held};

use crate::memory::Memory;
use rows::Row;

impl Memory {
    // Registers zero and an empty stack.
    pub(crate) fn start() -> Memory
        ensures registers { result.registers ≡ replicate 8 0 }
        ensures stack { held result.stack ≡ [] }
    {
        Memory {
            registers: [0; 8],
            stack: Row::empty(0),
        }
    }

    pub(crate) fn register(&self, n: u8) -> u32
        requires { n < 8 }
        ensures { result ≡ slice_index self.now.registers n }
    {
        self.registers[usize::from(n)]
    }

    pub(crate) fn set_register(&mut self, n: u8, word: u32)
        requires { n < 8 }
        ensures registers { self.new.registers ≡ slice_set self.old.registers n word }
        ensures stack { self.new.stack ≡ self.old.stack }
    {
        self.registers[usize::from(n)] = word;
    }
}
