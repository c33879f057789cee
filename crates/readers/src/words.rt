ghost use Rattle.std.specs.Prelude.{◌≡◌, slice_index};

// The word at the place, or 0 where there is none.
pub(crate) fn word_at(words: &[u32], i: usize) -> u32
    ensures { result ≡ slice_index words.now i }
{
    words.get(i).copied().unwrap_or(0)
}
