ghost use Rattle.std.specs.Prelude.{◌≡◌, ◌≤◌, true, false, length};
ghost use Rattle.press_box.specs.Kept.{may_keep};
ghost use Rattle.machine.specs.Box.{new_box};
ghost use Rattle.press_box.specs.Model.{stored};

use super::ImageStore;

impl ImageStore {
    pub fn new() -> ImageStore
        ensures { stored result ≡ new_box }
    {
        ImageStore {
            words: [0; 2048],
            len: 0,
            stopped: false,
        }
    }

    // Holds the image from now on, and is not stopped.
    pub(crate) fn keep(&mut self, image: &[u32])
        requires fine { may_keep image.now ≡ true }
        requires few { length image.now ≤ 2048 }
        ensures { stored self.new ≡ record { image = image.now; stopped = false } }
    {
        let n = image.len();
        self.words[0..n].copy_from_slice(image);
        self.len = n;
        self.stopped = false;
    }

    // The image that is held; no word where there is none.
    pub fn image(&self) -> &[u32]
        ensures value { result.now ≡ (stored self.now).image }
        ensures kept { may_keep result.now ≡ true }
    {
        &self.words[0..self.len]
    }

    pub fn is_stopped(&self) -> bool
        ensures { result ≡ (stored self.now).stopped }
    {
        self.stopped
    }
}
