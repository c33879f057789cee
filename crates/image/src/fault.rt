ghost use Rattle.image.specs.Faults.{placed};
ghost use Rattle.image.specs.Finding.{broken};
ghost use Rattle.std.specs.Prelude.{◌≡◌, [], ◌∷◌};
ghost use Rattle.std.specs.Result.{result_err};

// A broken rule of some pass, and the place of the word that breaks it.
#[derive(Clone, Copy)]
pub struct Fault<R> {
    pub rule: R,
    pub place: usize,
}

impl<R> Fault<R> {
    // What is answered about the word at a place, where a broken rule is a fault of that word.
    pub fn at<T>(place: usize, answer: Result<T, R>) -> Result<T, Fault<R>>
        ensures { result ≡ placed place answer }
    {
        answer.map_err(|rule| Fault { rule, place })
    }
}

// The rule is broken unless it is kept.
pub fn ask<R: Copy>(kept: bool, rule: R) -> Result<(), R>
    ensures { result_err result ≡ broken ((rule, kept) ∷ []) }
{
    if kept { Ok(()) } else { Err(rule) }
}
