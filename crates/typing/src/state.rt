ghost use Rattle.std.specs.Prelude.{◌≡◌, ◌+◌, ◌≤◌, ◌++◌, map, length, drop, replicate, if◌then◌else◌, nat_le};
ghost use Rattle.typing.specs.Promises.{promised};
ghost use Rattle.typing.specs.States.{known, with_types, with_slots};
ghost use Rattle.image.specs.declared.head.Context.TheVariants.{Raised};
ghost use Rattle.image.specs.declared.ty.Ty.TheVariants.{Nonsense};
ghost use Rattle.rows.specs.Rows.{held};
ghost use Rattle.rules.specs.Says.{type_in};
ghost use Rattle.rules.specs.Types.{level, reg, slot, set_reg, set_slot};

use crate::promise::Promise;
use image::head::Context;
use image::ty::Ty;
use programme::decode::type_in;
use rows::Row;
use rules::types::level;

// What is known before an instruction: the context, and the types of registers and of slots, the top slot first. A block without a
// signature has no registers, so the registers are a row too.
#[derive(Drop)]
pub struct State {
    context: Context,
    registers: Row<Ty, 8>,
    slots: Row<Ty, 32>,
}

impl State {
    // What is known on entry of a block.
    pub fn of(promise: &Promise<'_>) -> State
        ensures { known result ≡ promised promise.now }
    {
        State {
            context: promise.context,
            registers: types_in(promise.registers),
            slots: types_in(promise.slots),
        }
    }

    pub fn context(&self) -> Context
        ensures { result ≡ (known self.now).context }
    {
        self.context
    }

    // The context's label, 0 for the empty one.
    pub fn level(&self) -> u8
        ensures { result ≡ level (known self.now).context }
    {
        level(self.context)
    }

    pub fn registers(&self) -> &[Ty]
        ensures { result.now ≡ (known self.now).types.registers }
    {
        self.registers.values()
    }

    pub fn slots(&self) -> &[Ty]
        ensures { result.now ≡ (known self.now).types.slots }
    {
        self.slots.values()
    }

    // How many slots there are.
    pub fn depth(&self) -> usize
        ensures value { result ≡ length (known self.now).types.slots }
        ensures small { result ≤ 32 }
    {
        self.slots.depth()
    }

    // The type of a register, nonsense where there is none.
    pub fn reg(&self, r: u8) -> Ty
        ensures { result ≡ reg (known self.now).types r }
    {
        self.registers.get(usize::from(r), Ty::Nonsense)
    }

    // The type of a slot, nonsense where there is none.
    pub fn slot(&self, n: u8) -> Ty
        ensures { result ≡ slot (known self.now).types n }
    {
        self.slots.get(usize::from(n), Ty::Nonsense)
    }

    pub fn set_reg(&mut self, r: u8, t: Ty)
        ensures { known self.new ≡ with_types (known self.old) (set_reg (known self.old).types r t) }
    {
        self.registers.put(usize::from(r), t);
    }

    pub fn set_slot(&mut self, n: u8, t: Ty)
        ensures { known self.new ≡ with_types (known self.old) (set_slot (known self.old).types n t) }
    {
        self.slots.put(usize::from(n), t);
    }

    // So many slots more on top, of which nothing is known. Where there is no room, nothing changes, and the answer says so as that of
    // `Row` does.
    pub fn push(&mut self, count: u8) -> bool
        ensures room { result ≡ nat_le (length (known self.old).types.slots + count) 32 }
        ensures after { known self.new ≡ with_slots (known self.old) (if result then replicate count Nonsense ++ (known self.old).types.slots else (known self.old).types.slots) }
    {
        self.slots.push(usize::from(count), Ty::Nonsense)
    }

    // So many slots fewer on top.
    pub fn pop(&mut self, count: u8)
        ensures { known self.new ≡ with_slots (known self.old) (drop count (known self.old).types.slots) }
    {
        self.slots.pop(usize::from(count));
    }

    pub fn raise(&mut self, label: u8, postdominator: u8)
        ensures { known self.new ≡ record { context = Raised label postdominator; types = (known self.old).types } }
    {
        self.context = Context::Raised {
            label,
            postdominator,
        };
    }
}

// The types that words within a signature are.
fn types_in<const N: usize>(words: &[u32]) -> Row<Ty, N>
    requires { length words.now ≤ N }
    ensures { held result ≡ map type_in words.now }
{
    let mut row = Row::empty(Ty::Nonsense);
    for word in words.iter().rev() {
        let _ = row.push(1, type_in(*word));
    }
    row
}
