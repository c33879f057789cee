ghost use Rattle.image.specs.Finding.{clear};
ghost use Rattle.image.specs.Layout.{layout};
ghost use Rattle.std.specs.Prelude.{◌≡◌};

mod check;
mod lookup;

// The words of an image in which the layout pass finds nothing: only `LaidOut::check` makes one. What the methods say holds of any
// words, since only the items before the first fault make the programme.
#[derive(Clone, Copy)]
pub struct LaidOut<'a> {
    words: &'a [u32],
    ghost sound: { layout words.now ≡ clear },
}
