ghost use Rattle.std.specs.Prelude.{◌≡◌, length};

use rows::Row;

mod access;
mod obey;

// What a run works on beside the cells: eight registers, and the stack with its top first.
#[derive(Drop)]
pub(crate) struct Memory {
    registers: [u32; 8],
    stack: Row<u32, 32>,
    ghost eight: { length registers ≡ 8 },
}
