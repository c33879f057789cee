ghost use Rattle.flow.specs.Walks.{walk_tests, code_tests, arrival_tests};
ghost use Rattle.image.specs.Finding.{broken};
ghost use Rattle.image.specs.declared.instruction.Instruction.TheVariants.{Store, Strike, Branch, Raise, Jump, Lower};
ghost use Rattle.programme.specs.Spelled.{program_in};
ghost use Rattle.rules.specs.Fit.{is_integer, is_pointer, has_cell};
ghost use Rattle.rules.specs.Types.{reg};
ghost use Rattle.rules.specs.declared.rule.FlowRule.TheVariants.{WrongSort, NoSuchCell, LabelTooHigh};
ghost use Rattle.std.specs.Prelude.{◌≡◌, [], ◌∷◌};
ghost use Rattle.std.specs.Result.{result_err};
ghost use Rattle.typing.specs.Promises.{promised};
ghost use Rattle.typing.specs.States.{known};

use super::Walk;
use image::fault::ask;
use image::instruction::Instruction;
use image::ty::Ty;
use labels::LabelKind;
use rules::rule::FlowRule;
use rules::types::{
    alike, is_code, is_empty, is_integer, is_pointer, joined_label, label_of, raised_to,
    same_context,
};
use typing::lookup::{block_promise, cell_type, channel_label, has_cell, target_promise};
use typing::promise::Promise;

impl<K: LabelKind> Walk<'_, '_, K> {
    // The rule of the lowest number that an instruction breaks here, if it breaks any.
    pub(super) fn instruction_fault(&self, i: Instruction) -> Result<(), FlowRule>
        ensures { result_err result ≡ broken (walk_tests K.LabelKind.meaning self.now i) }
    {
        let depth = self.state.depth();
        match i {
            Instruction::SetNumber { .. }
            | Instruction::SetTuple { .. }
            | Instruction::SetBlock { .. }
            | Instruction::Copy { .. } => Ok(()),
            Instruction::Add { left, right, .. } | Instruction::Subtract { left, right, .. } => {
                self.sum_fault(left, right)
            }
            Instruction::Fetch { pointer, cell, .. } => {
                self.cell_fault(self.state.reg(pointer), cell)
            }
            Instruction::Store {
                pointer,
                from,
                cell,
            } => self.store_fault(pointer, from, cell),
            Instruction::Push { count } => ask(depth + usize::from(count) <= 32, FlowRule::TooDeep),
            Instruction::Pop { count } => ask(usize::from(count) <= depth, FlowRule::NoSuchSlot),
            Instruction::Peek { slot, .. } | Instruction::Poke { slot, .. } => {
                ask(usize::from(slot) < depth, FlowRule::NoSuchSlot)
            }
            Instruction::Strike { channel, from } => self.strike_fault(channel, from),
            Instruction::Branch { test, target } => self.branch_fault(test, target),
            Instruction::Raise {
                label,
                postdominator,
            } => self.raise_fault(label, postdominator),
            Instruction::Jump { target } => self.jump_fault(target),
            Instruction::Lower { block } => self.lower_fault(block),
            Instruction::Halt => ask(is_empty(self.state.context()), FlowRule::WrongContext),
        }
    }

    // Both registers of a sum or a difference are integers.
    fn sum_fault(&self, left: u8, right: u8) -> Result<(), FlowRule>
        ensures { result_err result ≡ broken ((WrongSort, is_integer (reg (known self.now.state).types left)) ∷ (WrongSort, is_integer (reg (known self.now.state).types right)) ∷ []) }
    {
        ask(is_integer(self.state.reg(left)), FlowRule::WrongSort)?;
        ask(is_integer(self.state.reg(right)), FlowRule::WrongSort)
    }

    // A label flows only to one that it is at or below.
    fn label_fault(&self, label: u8, to: u8) -> Result<(), FlowRule>
        ensures { result_err result ≡ broken ((LabelTooHigh, (K.LabelKind.meaning self.now.kind.now).below label to) ∷ []) }
    {
        ask(self.kind.at_or_below(label, to), FlowRule::LabelTooHigh)
    }

    // A pointer's tuples have the cell.
    fn cell_fault(&self, t: Ty, n: u8) -> Result<(), FlowRule>
        ensures { result_err result ≡ broken ((WrongSort, is_pointer t) ∷ (NoSuchCell, has_cell (program_in self.now.image) t n) ∷ []) }
    {
        ask(is_pointer(t), FlowRule::WrongSort)?;
        ask(has_cell(&self.image, t, n), FlowRule::NoSuchCell)
    }

    // What is stored is like the cell. The pointer's label counts too, since it tells which tuple is written.
    fn store_fault(&self, pointer: u8, from: u8, n: u8) -> Result<(), FlowRule>
        ensures { result_err result ≡ broken (walk_tests K.LabelKind.meaning self.now (Store pointer from n)) }
    {
        let t = self.state.reg(pointer);
        let value = self.state.reg(from);
        self.cell_fault(t, n)?;
        let held = cell_type(&self.image, t, n);
        ask(alike(value, held), FlowRule::WrongSort)?;
        let label = joined_label(self.kind, self.state.level(), t, value);
        self.label_fault(label, label_of(held))
    }

    fn strike_fault(&self, channel: u8, from: u8) -> Result<(), FlowRule>
        ensures { result_err result ≡ broken (walk_tests K.LabelKind.meaning self.now (Strike channel from)) }
    {
        let value = self.state.reg(from);
        ask(is_integer(value), FlowRule::WrongSort)?;
        let label = self.kind.join(self.state.level(), label_of(value));
        self.label_fault(label, channel_label(&self.image, channel))
    }

    // The test and the target are both guarded by the context.
    fn branch_fault(&self, test: u8, to: u8) -> Result<(), FlowRule>
        ensures { result_err result ≡ broken (walk_tests K.LabelKind.meaning self.now (Branch test to)) }
    {
        let t = self.state.reg(to);
        ask(is_integer(self.state.reg(test)), FlowRule::WrongSort)?;
        ask(is_code(t), FlowRule::WrongSort)?;
        self.label_fault(label_of(self.state.reg(test)), self.state.level())?;
        self.transfer_fault(t)
    }

    // The postdominator's context is the present one, so that a lower comes back to it.
    fn raise_fault(&self, label: u8, postdominator: u8) -> Result<(), FlowRule>
        ensures { result_err result ≡ broken (walk_tests K.LabelKind.meaning self.now (Raise label postdominator)) }
    {
        let back = block_promise(&self.image, postdominator).context;
        self.label_fault(self.state.level(), label)?;
        ask(
            same_context(back, self.state.context()),
            FlowRule::WrongContext,
        )
    }

    fn jump_fault(&self, to: u8) -> Result<(), FlowRule>
        ensures { result_err result ≡ broken (walk_tests K.LabelKind.meaning self.now (Jump to)) }
    {
        let t = self.state.reg(to);
        ask(is_code(t), FlowRule::WrongSort)?;
        self.transfer_fault(t)
    }

    // Control goes to a block of the signature that a code type names, in the context that it has now.
    fn transfer_fault(&self, t: Ty) -> Result<(), FlowRule>
        ensures { result_err result ≡ broken (code_tests K.LabelKind.meaning self.now t) }
    {
        let want = target_promise(&self.image, t);
        self.label_fault(label_of(t), self.state.level())?;
        self.arrival_fault(&want, same_context(want.context, self.state.context()))
    }

    // Control goes to the postdominator: the context is raised to it, and its own context is not compared.
    fn lower_fault(&self, block: u8) -> Result<(), FlowRule>
        ensures { result_err result ≡ broken (walk_tests K.LabelKind.meaning self.now (Lower block)) }
    {
        let want = block_promise(&self.image, block);
        self.arrival_fault(&want, raised_to(block, self.state.context()))
    }

    // Control goes to a block of which this is promised, where it is known whether the context is as it is to be.
    fn arrival_fault(&self, want: &Promise<'_>, context_fits: bool) -> Result<(), FlowRule>
        ensures { result_err result ≡ broken (arrival_tests K.LabelKind.meaning self.now (promised want.now).types context_fits) }
    {
        let labels = self.state.labels_fit(self.kind, want);
        ask(labels, FlowRule::LabelMisfit)?;
        ask(context_fits, FlowRule::WrongContext)?;
        ask(self.state.same_depth(want), FlowRule::DepthMisfit)?;
        ask(self.state.sorts_fit(want), FlowRule::SortMisfit)
    }
}
