ghost use Rattle.std.specs.Prelude.{◌≡◌, ◌≤◌, true, take};
ghost use Rattle.press_box.specs.Kept.{may_keep};

mod keep;
mod load;
mod run;

// The device's memory for an image. It holds none, or one that meets each rule that asks no label kind, so that whoever reads it need not
// check again. It is fixed, with the length beside it: the device has no heap, and C hands the memory over.
#[derive(Drop)]
#[repr(C)]
pub struct ImageStore {
    words: [u32; 2048],
    len: usize,
    stopped: bool,
    ghost within: { len ≤ 2048 },
    ghost kept: { may_keep (take len words) ≡ true },
}
