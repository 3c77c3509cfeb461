ghost use Rattle.std.specs.Prelude.{◌≡◌};
ghost use Rattle.datatypes.specs.Comparison.{answer, compared};

use crate::library::DatatypeLibrary;
use crate::type_name::TypeName;

/// What a library says of two strings under one of its types.
#[derive(Clone, Copy, PartialEq, Eq, Debug)]
pub enum Comparison {
    /// The strings are same, so that both are allowed.
    Same,
    /// The strings are not same; each is allowed or not.
    Different {
        left_allowed: bool,
        right_allowed: bool,
    },
}

/// Compares two strings under the type that has a name, if the library has it.
pub fn compare<L: DatatypeLibrary>(
    library: &L,
    type_name: TypeName<'_>,
    left: &[u8],
    right: &[u8],
) -> Option<Comparison>
    ensures { answer result ≡ compared (L.meaning library.now) type_name.entry.uri.now type_name.entry.name.now left.now right.now }
{
    let datatype = library.find(type_name)?;
    if library.same(datatype, left, right) {
        return Some(Comparison::Same);
    }
    Some(Comparison::Different {
        left_allowed: library.allows(datatype, left),
        right_allowed: library.allows(datatype, right),
    })
}
