ghost use Rattle.std.specs.Prelude.{◌≡◌, ◌≤◌, length};

mod ops;

// A row of at most N values that grows and shrinks at its front, as a stack does at its top.
#[derive(Drop)]
pub struct Row<T, const N: usize> {
    // The values stand at the end, and what stands before the front does not count. Fixed, since the device has no heap.
    places: [T; N],
    front: usize,
    ghost whole: { length places ≡ N },
    ghost within: { front ≤ N },
}
