ghost use Rattle.rules.specs.Card.{examples};
ghost use Rattle.rules.specs.Promises.{CardRows, LayoutDecides, OneProgramme, NamingDecides, FlowDecides, VerdictDecides, AcceptedIsKindFree, KindFreeAsksNoLabel, KindFreeTested};
ghost use Rattle.std.specs.Prelude.{◌≡◌, length};

// How many worked examples there are: each comes out as it says.
pub fn worked_examples() -> usize
    ensures count { result ≡ length examples }
    ensures hold { CardRows }
{
    12
}

// How many passes judge an image: each decides its own rules, and all of them together every rule.
pub fn passes() -> u8
    ensures count { result ≡ 3 }
    ensures layout { LayoutDecides }
    ensures once { OneProgramme }
    ensures naming { NamingDecides }
    ensures flow { FlowDecides }
    ensures verdict { VerdictDecides }
{
    3
}

// How many of the twelve refusals ask no label kind: an image that any kind accepts meets the rules behind them.
pub fn kind_free_refusals() -> u8
    ensures count { result ≡ 10 }
    ensures kept { AcceptedIsKindFree }
    ensures only { KindFreeAsksNoLabel }
    ensures tested { KindFreeTested }
{
    10
}
