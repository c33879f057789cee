ghost use Rattle.flow.specs.Walks.{walk_tests, walk_after};
ghost use Rattle.image.specs.Finding.{broken};
ghost use Rattle.programme.specs.Spelled.{program_in};
ghost use Rattle.rules.specs.Types.{label_of, over, cell};
ghost use Rattle.std.specs.Prelude.{◌≡◌, None};
ghost use Rattle.typing.specs.States.{known};

use super::Walk;
use image::instruction::Instruction;
use image::ty::Ty;
use labels::LabelKind;
use programme::laid_out::LaidOut;
use rules::types::{code, integer, joined_label, label_of, over, pointer};
use typing::lookup::{block_signature, cell_type, tuple_shape};

// The type of what is fetched: the label of the pointer is joined in, since it tells which tuple is read. Kind and image by themselves, since
// `advance` has the state borrowed beside them.
fn fetched_type<K: LabelKind>(kind: &K, image: &LaidOut<'_>, l: u8, t: Ty, n: u8) -> Ty
    ensures { result ≡ over (K.LabelKind.meaning kind.now) ((K.LabelKind.meaning kind.now).joined l (label_of t)) (cell (program_in image.now) t n) }
{
    over(kind, kind.join(l, label_of(t)), cell_type(image, t, n))
}

impl<K: LabelKind> Walk<'_, '_, K> {
    // Brings the walk past an instruction that breaks no rule here.
    pub(super) fn advance(&mut self, i: Instruction)
        requires { broken (walk_tests K.LabelKind.meaning self.old i) ≡ None }
        ensures known { known self.new.state ≡ walk_after K.LabelKind.meaning self.old i }
        ensures same { self.new ≡ record self.old { state = self.new.state } }
    {
        let (kind, image, s) = (self.kind, &self.image, &mut self.state);
        let label = s.level();
        match i {
            Instruction::SetNumber { to, .. } => s.set_reg(to, integer(label)),
            Instruction::SetTuple { to, tuple } => s.set_reg(
                to,
                pointer(tuple_shape(image, tuple), label),
            ),
            Instruction::SetBlock { to, block } => s.set_reg(
                to,
                code(block_signature(image, block), label),
            ),
            Instruction::Copy { to, from } => s.set_reg(to, over(kind, label, s.reg(from))),
            Instruction::Add { to, left, right } | Instruction::Subtract { to, left, right } => {
                let label = joined_label(kind, label, s.reg(left), s.reg(right));
                s.set_reg(to, integer(label))
            }
            Instruction::Fetch { to, pointer, cell } => {
                s.set_reg(to, fetched_type(kind, image, label, s.reg(pointer), cell))
            }
            Instruction::Push { count } => {
                let _ = s.push(count);
            }
            Instruction::Pop { count } => s.pop(count),
            Instruction::Peek { to, slot } => s.set_reg(to, over(kind, label, s.slot(slot))),
            Instruction::Poke { from, slot } => s.set_slot(slot, over(kind, label, s.reg(from))),
            Instruction::Raise {
                label,
                postdominator,
            } => s.raise(label, postdominator),
            _ => {}
        }
    }
}
