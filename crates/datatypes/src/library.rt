ghost use Rattle.std.specs.Prelude.{◌≡◌, Decides};
ghost use Rattle.datatypes.specs.Meaning.{Meaning, Lawful, allowed, same, SomeAllowed};

use crate::type_name::TypeName;

/// A datatype library. Its meaning is one value: the types that it has, numbered from 1, and the type, if any, that each
/// URI and name stand for. An implementation gives the meaning, shows that it keeps the laws, and shows that its answers
/// are the meaning's. Code over any library knows these, and nothing else of it.
///
/// Each question is answered whatever it is asked, and leaves the library as it was. By a number that is no type nothing is
/// allowed and nothing is same.
pub trait DatatypeLibrary {
    ghost meaning: { Self → Meaning };

    /// The number of the type that has a name.
    fn find(&self, type_name: TypeName<'_>) -> Option<u32>
        ensures { result ≡ (meaning self.now).type_of type_name.entry.uri.now type_name.entry.name.now };

    /// Does the type allow the string?
    fn allows(&self, datatype: u32, s: &[u8]) -> bool
        ensures { result ≡ allowed (meaning self.now) datatype s.now };

    /// Are the two strings same by the type?
    fn same(&self, datatype: u32, a: &[u8], b: &[u8]) -> bool
        ensures { result ≡ same (meaning self.now) datatype a.now b.now };

    /// Does the type allow any string at all?
    fn allows_any(&self, datatype: u32) -> bool
        ensures { Decides result (SomeAllowed (meaning self.now) datatype) };

    ghost lawful: { (library : Self) → Lawful (meaning library) };
}

/// The URI of the datatypes of XML Schema.
pub const XML_SCHEMA_DATATYPES: &[u8] = b"http://www.w3.org/2001/XMLSchema-datatypes";
