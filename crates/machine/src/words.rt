ghost use Rattle.std.specs.Prelude.{◌≡◌, ◌<◌, ◌∷◌, length, drop};
ghost use Rattle.machine.specs.Raises.{is_raise, past};
ghost use Rattle.rules.specs.Says.{body_of};

use image::instruction::Instruction;
use programme::decode::instruction_in;

// The first instruction of the words that are left of a block: the last word, and no other, ends the block. A word that is no
// instruction stands in no image that is laid out, and is read as a halt.
#[tactic(auto, using(crate::proofs::Facing::first_is))]
pub(crate) fn first(words: &[u32]) -> Instruction
    requires { 0 < length words.now }
    ensures { body_of words.now ≡ result ∷ body_of (drop 1 words.now) }
{
    instruction_in(words.len() == 1, words[0])
}

// The words from the first that is not a raise: a raise says nothing to the machine, and does not count.
pub(crate) fn past_raises(words: &[u32]) -> &[u32]
    ensures { body_of result.now ≡ past (body_of words.now) }
{
    let mut rest = words;
    while !rest.is_empty() && is_raise(first(rest)) {
        rest = &rest[1..];
    }
    rest
}

fn is_raise(i: Instruction) -> bool
    ensures { result ≡ is_raise i }
{
    matches!(i, Instruction::Raise { .. })
}
