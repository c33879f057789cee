// Refusals by the flow pass.
use flow::{FlowFault, Stuck};
use image::head::Context;
use image::instruction::Instruction;
use image::ty::{Sort, Ty};
use labels::LabelKind;
use programme::decode::type_in;
use programme::laid_out::LaidOut;
use rules::rule::FlowRule;
use rules::types::{fit_label, fit_sort, is_integer, is_pointer, joined_label, label_of};
use std::fmt;
use typing::lookup::{block_promise, cell_type, channel_label, target_promise};
use typing::promise::Promise;
use wording::{ContextText, Several, TypeText};

// A refusal by the flow pass: the kind, the image, and what was known before the instruction that breaks a rule.
#[derive_where(Clone, Copy)]
pub struct FlowRefusal<'k, 'i, 's, K> {
    pub kind: &'k K,
    pub image: LaidOut<'i>,
    pub fault: FlowFault,
    pub stuck: &'s Stuck,
}

impl<K: LabelKind> fmt::Display for FlowRefusal<'_, '_, '_, K> {
    fn fmt<W: fmt::Write>(&self, f: &mut fmt::Formatter<W>) -> fmt::Result {
        let place = self.fault.place;
        let number = self.fault.rule.number();
        let raw = self.image.words().get(place).copied().unwrap_or(0);
        write!(f, "refused {number} at word {place}, flow: {raw:08X} ")?;
        match self.fault.rule {
            FlowRule::WrongSort => self.wrong_sort(f),
            FlowRule::NoSuchCell => self.no_cell(f),
            FlowRule::TooDeep => self.too_deep(f),
            FlowRule::NoSuchSlot => self.no_slot(f),
            FlowRule::LabelTooHigh => self.too_high(f),
            FlowRule::WrongContext => self.wrong_context(f),
            FlowRule::LabelMisfit => self.label_misfit(f),
            FlowRule::DepthMisfit => self.depth_misfit(f),
            FlowRule::SortMisfit => self.sort_misfit(f),
        }
    }
}

// A context within a sentence.
#[derive(Clone, Copy)]
struct Phrase(Context);

impl fmt::Display for Phrase {
    fn fmt<W: fmt::Write>(&self, f: &mut fmt::Formatter<W>) -> fmt::Result {
        let article = match self.0 {
            Context::Empty => "an",
            Context::Raised { .. } => "a",
        };
        write!(f, "{article} {}", ContextText(self.0))
    }
}

// A register or slot whose type does not serve: its name, its index, and the two types.
#[derive(Clone, Copy)]
struct Misfit {
    name: &'static str,
    index: usize,
    have: Ty,
    want: Ty,
}

impl<'i, K: LabelKind> FlowRefusal<'_, 'i, '_, K> {
    // The type that was known of a register.
    fn reg(&self, r: u8) -> Ty {
        self.stuck.state.reg(r)
    }

    // What is wanted where control goes.
    fn wanted(&self) -> Promise<'i> {
        match self.stuck.instruction {
            Instruction::Branch { target, .. } | Instruction::Jump { target } => {
                target_promise(&self.image, self.reg(target))
            }
            Instruction::Lower { block } => block_promise(&self.image, block),
            _ => block_promise(&self.image, 0),
        }
    }

    // A register that has another sort than the one that is asked for.
    fn asks_for<W: fmt::Write>(&self, what: &str, r: u8, f: &mut fmt::Formatter<W>) -> fmt::Result {
        write!(
            f,
            "asks for {what} in r{r}, which is {}",
            TypeText(self.reg(r))
        )
    }

    fn wrong_sort<W: fmt::Write>(&self, f: &mut fmt::Formatter<W>) -> fmt::Result {
        match self.stuck.instruction {
            Instruction::Add { left, right, .. } | Instruction::Subtract { left, right, .. } => {
                let r = if is_integer(self.reg(left)) {
                    right
                } else {
                    left
                };
                self.asks_for("an integer", r, f)
            }
            Instruction::Fetch { pointer, .. } => self.asks_for("a pointer", pointer, f),
            Instruction::Store { pointer, .. } if !is_pointer(self.reg(pointer)) => {
                self.asks_for("a pointer", pointer, f)
            }
            Instruction::Store {
                pointer,
                from,
                cell,
            } => {
                write!(f, "stores r{from}, {}, ", TypeText(self.reg(from)))?;
                let there = cell_type(&self.image, self.reg(pointer), cell);
                write!(
                    f,
                    "into cell {cell}, {}: sort and number must agree",
                    TypeText(there)
                )
            }
            Instruction::Strike { from, .. } => self.asks_for("an integer", from, f),
            Instruction::Branch { test, target } => {
                if is_integer(self.reg(test)) {
                    self.asks_for("code", target, f)
                } else {
                    self.asks_for("an integer", test, f)
                }
            }
            Instruction::Jump { target } => self.asks_for("code", target, f),
            _ => write!(f, "finds an operand of another sort"),
        }
    }

    fn no_cell<W: fmt::Write>(&self, f: &mut fmt::Formatter<W>) -> fmt::Result {
        match self.stuck.instruction {
            Instruction::Fetch { pointer, cell, .. } | Instruction::Store { pointer, cell, .. } => {
                let there = self.reg(pointer);
                write!(f, "asks for cell {cell} of the tuple at r{pointer}, ")?;
                write!(
                    f,
                    "{}, which has {}",
                    TypeText(there),
                    Several(self.cells_behind(there), "cell")
                )
            }
            _ => write!(f, "asks for a cell that is not there"),
        }
    }

    // How many cells the tuples have that a pointer leads to.
    fn cells_behind(&self, t: Ty) -> usize {
        match t {
            Ty::Typed {
                sort: Sort::Pointer { shape },
                ..
            } => self.image.shape_types(shape).len(),
            _ => 0,
        }
    }

    fn too_deep<W: fmt::Write>(&self, f: &mut fmt::Formatter<W>) -> fmt::Result {
        let depth = self.stuck.state.depth();
        match self.stuck.instruction {
            Instruction::Push { count } => write!(
                f,
                "pushes {} at stack depth {depth}, and 32 is the most",
                Several(usize::from(count), "slot")
            ),
            _ => write!(f, "makes the stack deeper than 32"),
        }
    }

    fn no_slot<W: fmt::Write>(&self, f: &mut fmt::Formatter<W>) -> fmt::Result {
        let depth = self.stuck.state.depth();
        match self.stuck.instruction {
            Instruction::Pop { count } => write!(
                f,
                "drops {} at stack depth {depth}",
                Several(usize::from(count), "slot")
            ),
            Instruction::Peek { slot, .. } | Instruction::Poke { slot, .. } => {
                write!(
                    f,
                    "asks for slot {slot}, the top being 0, at stack depth {depth}"
                )
            }
            _ => write!(f, "asks for a slot that is not there"),
        }
    }

    fn too_high<W: fmt::Write>(&self, f: &mut fmt::Formatter<W>) -> fmt::Result {
        let t = self.stuck.state.level();
        match self.stuck.instruction {
            Instruction::Store {
                pointer,
                from,
                cell,
            } => self.stores_too_high(pointer, from, cell, f),
            Instruction::Strike { channel, from } => {
                let own = label_of(self.reg(from));
                let label = self.kind.join(t, own);
                let there = channel_label(&self.image, channel);
                write!(
                    f,
                    "strikes label {label} on channel {channel} of label {there}, which is not at or above it: "
                )?;
                write!(f, "the context has {t}, and r{from} has {own}")
            }
            Instruction::Branch { test, target } => {
                let is_test_low = self.kind.at_or_below(label_of(self.reg(test)), t);
                self.guard_too_high(if is_test_low { target } else { test }, f)
            }
            Instruction::Jump { target } => self.guard_too_high(target, f),
            Instruction::Raise { label, .. } => {
                write!(
                    f,
                    "raises a context of label {t} to label {label}, which is not at or above it"
                )
            }
            _ => write!(f, "lets a label flow to one that is not at or above it"),
        }
    }

    fn stores_too_high<W: fmt::Write>(
        &self,
        pointer: u8,
        from: u8,
        cell: u8,
        f: &mut fmt::Formatter<W>,
    ) -> fmt::Result {
        let t = self.stuck.state.level();
        let address = self.reg(pointer);
        let stored = self.reg(from);
        let label = joined_label(self.kind, t, address, stored);
        let there = label_of(cell_type(&self.image, address, cell));
        write!(
            f,
            "stores label {label} into cell {cell} of label {there}, which is not at or above it: "
        )?;
        write!(
            f,
            "the context has {t}, the pointer r{pointer} has {}, ",
            label_of(address)
        )?;
        write!(f, "and r{from} has {}", label_of(stored))
    }

    fn guard_too_high<W: fmt::Write>(&self, r: u8, f: &mut fmt::Formatter<W>) -> fmt::Result {
        let label = label_of(self.reg(r));
        let t = self.stuck.state.level();
        write!(
            f,
            "goes by r{r} of label {label} in a context of label {t}, which is not at or above it: "
        )?;
        write!(f, "raise the context first")
    }

    fn wrong_context<W: fmt::Write>(&self, f: &mut fmt::Formatter<W>) -> fmt::Result {
        let here = Phrase(self.stuck.state.context());
        match self.stuck.instruction {
            Instruction::Raise { postdominator, .. } => {
                let there = Phrase(block_promise(&self.image, postdominator).context);
                write!(
                    f,
                    "raises until block {postdominator}, which begins in {there}; "
                )?;
                write!(f, "it must begin in the present one, {here}")
            }
            Instruction::Lower { block } => {
                write!(
                    f,
                    "lowers to block {block} in {here}; the context must be raised until that block"
                )
            }
            Instruction::Halt => write!(f, "halts in {here}; only an empty one may halt"),
            _ => {
                let there = Phrase(self.wanted().context);
                write!(
                    f,
                    "goes to where {there} is wanted, from {here}; they must be the same"
                )
            }
        }
    }

    fn depth_misfit<W: fmt::Write>(&self, f: &mut fmt::Formatter<W>) -> fmt::Result {
        let have = self.stuck.state.depth();
        let there = self.wanted().slots.len();
        write!(
            f,
            "comes with stack depth {have} to where {there} is wanted"
        )
    }

    // The first register, and else slot, whose type does not serve where control goes.
    fn first_misfit<F: Fn(Ty, Ty) -> bool>(&self, serves: F) -> Option<Misfit>
        requires { F.IsAlwaysCallable serves }
    {
        let want = self.wanted();
        let state = &self.stuck.state;
        // No `or_else`: that its closure may call `serves` was not proved.
        match misfit_in("r", state.registers(), want.registers, &serves) {
            Some(m) => Some(m),
            None => misfit_in("slot ", state.slots(), want.slots, &serves),
        }
    }

    fn label_misfit<W: fmt::Write>(&self, f: &mut fmt::Formatter<W>) -> fmt::Result {
        let Some(m) = self.first_misfit(|have, want| fit_label(self.kind, have, want)) else {
            return write!(f, "comes with a label that is too high");
        };
        write!(
            f,
            "comes with label {} in {}{} ",
            label_of(m.have),
            m.name,
            m.index
        )?;
        write!(
            f,
            "to where label {} is wanted, which is not at or above it",
            label_of(m.want)
        )
    }

    fn sort_misfit<W: fmt::Write>(&self, f: &mut fmt::Formatter<W>) -> fmt::Result {
        let Some(m) = self.first_misfit(fit_sort) else {
            return write!(f, "comes with a type that does not serve");
        };
        write!(
            f,
            "comes with {}{}, {}, ",
            m.name,
            m.index,
            TypeText(m.have)
        )?;
        write!(f, "to where {} is wanted", TypeText(m.want))
    }
}

// The first of these registers, or slots, whose type does not serve as the wanted one.
fn misfit_in<F: Fn(Ty, Ty) -> bool>(
    name: &'static str,
    have: &[Ty],
    want: &[u32],
    serves: &F,
) -> Option<Misfit>
    requires { F.IsAlwaysCallable serves.now }
{
    have.iter()
        .zip(want)
        .enumerate()
        .map(|(index, (have, want))| Misfit {
            name,
            index,
            have: *have,
            want: type_in(*want),
        })
        .find(|m| !serves(m.have, m.want))
}
