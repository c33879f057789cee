ghost use Rattle.programme.specs.Spelled.{program_in, signature_spelled};
ghost use Rattle.image.specs.Finding.{broken};
ghost use Rattle.rules.specs.Naming.{no_address, starts, may_start};
ghost use Rattle.rules.specs.Program.{signature_at};
ghost use Rattle.rules.specs.Says.{type_in};
ghost use Rattle.std.specs.List.{list_all};
ghost use Rattle.std.specs.Prelude.{◌≡◌, [], ◌∷◌, length, nat_lt};
ghost use Rattle.std.specs.Result.{result_err};

use crate::names::{Names, REGISTERS};
use image::fault::ask;
use image::head::Context;
use image::ty::{Sort, Ty};
use labels::LabelKind;
use programme::decode::type_in;
use programme::parts::SignatureWords;
use rules::rule::NamingRule;

// Whether a type is integer or nonsense.
fn no_address(t: Ty) -> bool
    ensures { result ≡ no_address t }
{
    matches!(
        t,
        Ty::Nonsense
            | Ty::Typed {
                sort: Sort::Integer,
                ..
            }
    )
}

fn no_addresses(types: &[u32]) -> bool
    ensures { result ≡ list_all (λ raw. no_address (type_in raw)) types.now }
{
    types.iter().all(|raw| no_address(type_in(*raw)))
}

// Whether the start may have the signature.
fn starts(s: SignatureWords<'_>) -> bool
    ensures { result ≡ starts (signature_spelled s.entry) }
{
    s.context == Context::Empty && s.types.len() <= REGISTERS && no_addresses(s.types)
}

// Whether the block of the number may have the signature: block 0 is the start.
fn may_start(number: usize, s: SignatureWords<'_>) -> bool
    ensures { result ≡ may_start number (signature_spelled s.entry) }
{
    number != 0 || starts(s)
}

impl<K: LabelKind> Names<'_, K> {
    // What the head of the block of a number breaks, by the number of its signature.
    pub fn entry_fault(&self, number: usize, signature: u8) -> Result<(), NamingRule>
        ensures { result_err result ≡ broken ((NamingRule.NoSuchSignature, nat_lt signature (length (program_in self.now.image).signatures)) ∷ (NamingRule.BadStart, may_start number (signature_at (program_in self.now.image) signature)) ∷ []) }
    {
        let s = self
            .image
            .signature(signature)
            .ok_or(NamingRule::NoSuchSignature)?;
        ask(may_start(number, s), NamingRule::BadStart)
    }
}
