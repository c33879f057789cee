ghost use Rattle.rules.specs.Flow.{flow_number};
ghost use Rattle.rules.specs.Naming.{naming_number};
ghost use Rattle.std.specs.Prelude.{◌≡◌};

// The rules of the naming pass. Refusals go by number, and several rules share one.
#[derive(Clone, Copy, PartialEq, Eq)]
pub enum NamingRule {
    // 4: a register is one of eight
    NoSuchRegister,
    // 4: what is named by its number is there
    NoSuchChannel,
    NoSuchShape,
    NoSuchSignature,
    NoSuchTuple,
    NoSuchBlock,
    // 5: a code that stands for a label is one
    NotALabel,
    // 6: block 0 begins in an empty context, with an empty stack, and with registers that are integer or nonsense
    BadStart,
    // 7: a tuple has as many cells as its shape
    WrongCellCount,
    // 7: a cell's plain word is 0, or names a tuple or a block as the cell's type has it
    WrongPlainWord,
}

impl NamingRule {
    // The refusal's number.
    pub fn number(self) -> u8
        ensures { result ≡ naming_number self }
    {
        match self {
            NamingRule::NoSuchRegister => 4,
            NamingRule::NoSuchChannel => 4,
            NamingRule::NoSuchShape => 4,
            NamingRule::NoSuchSignature => 4,
            NamingRule::NoSuchTuple => 4,
            NamingRule::NoSuchBlock => 4,
            NamingRule::NotALabel => 5,
            NamingRule::BadStart => 6,
            NamingRule::WrongCellCount => 7,
            NamingRule::WrongPlainWord => 7,
        }
    }
}

// The rules of the flow pass.
#[derive(Clone, Copy, PartialEq, Eq)]
pub enum FlowRule {
    // 8: an operand has the sort and number that the instruction asks
    WrongSort,
    // 8: the tuple has the cell
    NoSuchCell,
    // 9: the stack has at most 32 slots
    TooDeep,
    // 9: the stack has the slot
    NoSuchSlot,
    // 10: a label is at or below the one that it flows to
    LabelTooHigh,
    // 10: where control goes, no register or slot has its label lowered
    LabelMisfit,
    // 11: the context is the one that is asked for
    WrongContext,
    // 12: where control goes, the stack has the depth that is wanted
    DepthMisfit,
    // 12: where control goes, registers and slots have the sorts and numbers that are wanted
    SortMisfit,
}

impl FlowRule {
    // The refusal's number.
    pub fn number(self) -> u8
        ensures { result ≡ flow_number self }
    {
        match self {
            FlowRule::WrongSort => 8,
            FlowRule::NoSuchCell => 8,
            FlowRule::TooDeep => 9,
            FlowRule::NoSuchSlot => 9,
            FlowRule::LabelTooHigh => 10,
            FlowRule::LabelMisfit => 10,
            FlowRule::WrongContext => 11,
            FlowRule::DepthMisfit => 12,
            FlowRule::SortMisfit => 12,
        }
    }
}
