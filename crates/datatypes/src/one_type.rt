ghost use Rattle.std.specs.Prelude.{◌≡◌};
ghost use Rattle.datatypes.specs.Laws.{library_of-Lawful};
ghost use Rattle.datatypes.specs.Names.{only_type};
ghost use Rattle.datatypes.specs.Values.{ValueType, LawfulValueType, Reads, library_of};

use crate::library::DatatypeLibrary;
use crate::type_name::{TypeName, same_name};

// The number of the only type: the types of a library are numbered from 1.
const ONLY: u32 = 1;

/// A library of one type, whose strings stand for values. An implementation defines the type, reads its strings and compares
/// their values, and is a `DatatypeLibrary` by that: a string is allowed if it stands for a value, and two are same if their
/// values are equal.
pub trait OneType {
    /// What the code has for the value of a string.
    type Value: Drop;

    // What the definition of the type has for it, and which of these a value of the code means.
    ghost Meant: { Type 0 };

    ghost meant: { Self.Value → Meant };

    ghost definition: { ValueType Meant };

    /// What the type is called.
    fn type_name() -> TypeName<'static>
        ensures uri { result.uri.now ≡ definition.uri }
        ensures name { result.name.now ≡ definition.name };

    /// The value that a string stands for, if it stands for one.
    fn parse(s: &[u8]) -> Option<Self::Value>
        ensures { Reads definition.equal meant (definition.read s.now) result };

    /// Are two values equal?
    // No `PartialEq` of `Value` with a law, since a law's proof can cite only `specs/`, and lemmas would have to move there.
    fn same_value(x: &Self::Value, y: &Self::Value) -> bool
        ensures { result ≡ definition.equal (meant x.now) (meant y.now) };

    /// A string that stands for a value.
    fn example() -> &'static [u8]
        ensures { result.now ≡ definition.example };

    ghost lawful: { LawfulValueType definition };
}

impl<T: OneType> DatatypeLibrary for T {
    ghost meaning = { λ _. library_of T.definition };

    ghost lawful = { λ _. library_of-Lawful T.definition T.lawful };

    fn find(&self, type_name: TypeName<'_>) -> Option<u32> {
        let own = T::type_name();
        find_only_type(own.uri, own.name, type_name.uri, type_name.name)
    }

    fn allows(&self, datatype: u32, s: &[u8]) -> bool {
        datatype == ONLY && T::parse(s).is_some()
    }

    fn same(&self, datatype: u32, a: &[u8], b: &[u8]) -> bool {
        if datatype != ONLY {
            return false;
        }
        // The second string is read only where the first stands for a value, since it may be long.
        let Some(x) = T::parse(a) else {
            return false;
        };
        let Some(y) = T::parse(b) else {
            return false;
        };
        T::same_value(&x, &y)
    }

    fn allows_any(&self, datatype: u32) -> bool {
        self.allows(datatype, T::example())
    }
}

/// What a library of one type answers to `find`.
pub fn find_only_type(own_uri: &[u8], own_name: &[u8], uri: &[u8], name: &[u8]) -> Option<u32>
    ensures { result ≡ only_type own_uri.now own_name.now uri.now name.now }
{
    same_name(own_uri, own_name, uri, name).then_some(ONLY)
}
