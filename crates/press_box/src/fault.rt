ghost use Rattle.press_box.specs.Refusals.{pass_of, number_in, place_in};
ghost use Rattle.press_box.specs.Runs.{run_number};
ghost use Rattle.press_box.specs.declared.fault.LoadFault.TheVariants.{Layout, Naming, Flow};
ghost use Rattle.std.specs.Prelude.{◌≡◌};

use flow::FlowFault;
use image::rule::LayoutFault;
use naming::fault::NamingFault;

// The passes of a load, in their order.
#[derive(Clone, Copy, PartialEq, Eq, Debug)]
pub enum Pass {
    Layout,
    Naming,
    Flow,
}

// Why a load is refused: the fault of the pass that refuses it, whole.
#[derive(Clone, Copy)]
pub enum LoadFault {
    Layout(LayoutFault),
    Naming(NamingFault),
    Flow(FlowFault),
}

impl From<LayoutFault> for LoadFault {
    ghost from_gives = { λ f r. r ≡ Layout f };

    fn from(f: LayoutFault) -> LoadFault {
        LoadFault::Layout(f)
    }
}

impl From<NamingFault> for LoadFault {
    ghost from_gives = { λ f r. r ≡ Naming f };

    fn from(f: NamingFault) -> LoadFault {
        LoadFault::Naming(f)
    }
}

impl From<FlowFault> for LoadFault {
    ghost from_gives = { λ f r. r ≡ Flow f };

    fn from(f: FlowFault) -> LoadFault {
        LoadFault::Flow(f)
    }
}

impl LoadFault {
    pub fn pass(self) -> Pass
        ensures { result ≡ pass_of self }
    {
        match self {
            LoadFault::Layout(_) => Pass::Layout,
            LoadFault::Naming(_) => Pass::Naming,
            LoadFault::Flow(_) => Pass::Flow,
        }
    }

    // The refusal's number, 1 to 12.
    pub fn number(self) -> u8
        ensures { result ≡ number_in self }
    {
        match self {
            LoadFault::Layout(f) => f.rule.number(),
            LoadFault::Naming(f) => f.rule.number(),
            LoadFault::Flow(f) => f.rule.number(),
        }
    }

    // The place of the word that breaks the rule.
    pub fn place(self) -> usize
        ensures { result ≡ place_in self }
    {
        match self {
            LoadFault::Layout(f) => f.place,
            LoadFault::Naming(f) => f.place,
            LoadFault::Flow(f) => f.place,
        }
    }
}

// Why a run is refused, in the order in which it is tested: the box holds no image; a run has stopped it; the job has not a word for each
// integer cell; the sheet has not a word for each cell.
#[derive(Clone, Copy, PartialEq, Eq, Debug)]
pub enum RunFault {
    Empty,
    Stopped,
    JobLength,
    SheetTooShort,
}

impl RunFault {
    // The refusal's number, 13 to 16.
    pub fn number(self) -> u8
        ensures { result ≡ run_number self }
    {
        match self {
            RunFault::Empty => 13,
            RunFault::Stopped => 14,
            RunFault::JobLength => 15,
            RunFault::SheetTooShort => 16,
        }
    }
}
