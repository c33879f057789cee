ghost use Rattle.std.specs.Prelude.{◌≤◌, length};

use image::head::Context;

// What holds on entry of a block: the context, and the type words of registers and of slots. Where there is no such signature, the
// context is empty and there are no types.
#[derive(Clone, Copy)]
pub struct Promise<'a> {
    pub context: Context,
    pub registers: &'a [u32],
    pub slots: &'a [u32],
    ghost few: { length registers.now ≤ 8 },
    ghost shallow: { length slots.now ≤ 32 },
}
