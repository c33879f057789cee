ghost use Rattle.flow.specs.Stops.{finding_from};
ghost use Rattle.flow.specs.Stuck.{BreaksItsRule};
ghost use Rattle.image.specs.declared.section.Section.TheVariants.{Blocks};
ghost use Rattle.programme.specs.Lookup.{part_piece};
ghost use Rattle.programme.specs.Spelled.{program_in};
ghost use Rattle.rules.specs.Flow.{part_flow};
ghost use Rattle.rules.specs.Says.{says};
ghost use Rattle.std.specs.Prelude.{◌≡◌, ◌+◌, ◌<◌, length, IfErr};

use crate::stuck::Stuck;
use image::item::Part;
use image::word::Word;
use labels::LabelKind;
use programme::decode::instruction_in;
use programme::laid_out::LaidOut;
use typing::lookup::signature_promise;
use typing::state::State;

mod check;
mod effect;

// A walk through a block: the label kind and the image that it goes by, and what is known before the next instruction. Where there is no
// state yet, as at the entries of the pass, kind and image go by themselves.
#[derive(Drop)]
struct Walk<'k, 'i, K> {
    kind: &'k K,
    image: LaidOut<'i>,
    state: State,
}

// Where a block breaks a rule first: which of the words behind its head it is, and what is known there.
#[derive(Drop)]
pub(crate) struct Stop {
    pub index: usize,
    pub stuck: Stuck,
}

// Walks the words of a block behind its head, from what its signature promises, up to the first that breaks a rule.
pub(crate) fn check_words<K: LabelKind>(
    kind: &K,
    image: LaidOut<'_>,
    block: Part<'_>,
) -> Result<(), Stop>
    ensures finding { finding_from block.entry.place result ≡ part_flow (K.LabelKind.meaning kind.now) (program_in image.entry) block.entry.place (says (part_piece Blocks block.entry)) }
    ensures stuck { IfErr result (λ stop. BreaksItsRule (K.LabelKind.meaning kind.now) (program_in image.entry) stop.stuck) }
    ensures within { IfErr result (λ stop. stop.index + 1 < length block.entry.words.now) }
{
    let Some((head, words)) = block.words.split_first() else {
        return Ok(());
    };
    let mut walk = Walk {
        kind,
        image,
        state: State::of(&signature_promise(&image, Word::from(*head).b)),
    };
    for (index, raw) in words.iter().enumerate() {
        let instruction = instruction_in(index + 1 == words.len(), *raw);
        if let Err(rule) = walk.instruction_fault(instruction) {
            return Err(Stop {
                index,
                stuck: Stuck {
                    state: walk.state,
                    instruction,
                    rule,
                },
            });
        }
        walk.advance(instruction);
    }
    Ok(())
}
