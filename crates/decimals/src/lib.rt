//! The datatype library of decimals.
#![tactic(auto)]

ghost use Rattle.std.specs.Prelude.{◌≡◌};
ghost use Rattle.datatypes.specs.Decimals.{decimal, decimals};
ghost use Rattle.datatypes.specs.Meaning.{Lawful};
ghost use Rattle.datatypes.specs.Numeral.{Number};
ghost use Rattle.decimals.specs.Held.{held};
ghost use Rattle.decimals.specs.Laws.{decimal-Lawful};

mod decimal;
mod digits;
mod reading;

use datatypes::{DatatypeLibrary, OneType, TypeName, XML_SCHEMA_DATATYPES};
pub use decimal::Decimal;

/// The library of decimals: its type `decimal` allows what `Decimal::parse` reads, and compares by value.
#[derive(Clone, Copy)]
pub struct Decimals;

impl OneType for Decimals {
    type Value = Decimal;

    ghost Meant = { Number };

    ghost meant = { held };

    ghost definition = { decimal };

    fn type_name() -> TypeName<'static> {
        TypeName {
            uri: XML_SCHEMA_DATATYPES,
            name: b"decimal",
        }
    }

    fn parse(s: &[u8]) -> Option<Decimal> {
        Decimal::parse(s)
    }

    fn same_value(x: &Decimal, y: &Decimal) -> bool {
        x.same_value(y)
    }

    fn example() -> &'static [u8] {
        b"0"
    }

    ghost lawful = { decimal-Lawful };
}

impl Decimals {
    /// The library means `decimals`, which keeps the laws. This does nothing: its contract ties that definition and its proof, which
    /// the `impl` for all `OneType` does not name, to the code.
    pub fn means_decimals(&self)
        ensures meaning { ⟦<Decimals as DatatypeLibrary>⟧.meaning self.now ≡ decimals }
        ensures lawful { Lawful decimals }
    {}
}
