ghost use Rattle.std.specs.Prelude.{◌≡◌, count_by, map};
ghost use Rattle.rules.specs.Fit.{is_integer};
ghost use Rattle.rules.specs.Says.{type_in};

use programme::decode::type_in;
use rules::types::is_integer;

// How many of the type words are an integer's.
pub(crate) fn integer_types(types: &[u32]) -> usize
    ensures { result ≡ count_by is_integer (map type_in types.now) }
{
    types
        .iter()
        .map(|word| type_in(*word))
        .filter(|ty| is_integer(*ty))
        .count()
}
