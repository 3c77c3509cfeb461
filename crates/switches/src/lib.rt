//! An example of a datatype library as a customer would write one: the type `switch`, whose strings `Y` and `1` stand for on,
//! and `N` and `0` for off.
#![tactic(auto)]

ghost use Rattle.std.specs.Prelude.{◌≡◌, Bool};
ghost use Rattle.datatypes.specs.Meaning.{Lawful};
ghost use Rattle.switches.specs.Laws.{switch-Lawful};
ghost use Rattle.switches.specs.Switch.{switch, switches};

use datatypes::{DatatypeLibrary, OneType, TypeName, trim_blanks};

/// The library of switches.
#[derive(Clone, Copy)]
pub struct Switches;

impl OneType for Switches {
    // Is it on?
    type Value = bool;

    ghost Meant = { Bool };

    ghost meant = { λ on. on };

    ghost definition = { switch };

    fn type_name() -> TypeName<'static> {
        TypeName {
            uri: b"urn:example:switches",
            name: b"switch",
        }
    }

    fn parse(s: &[u8]) -> Option<bool> {
        match trim_blanks(s) {
            [b'Y' | b'1'] => Some(true),
            [b'N' | b'0'] => Some(false),
            _ => None,
        }
    }

    fn same_value(x: &bool, y: &bool) -> bool {
        x == y
    }

    fn example() -> &'static [u8] {
        b"0"
    }

    ghost lawful = { switch-Lawful };
}

impl Switches {
    /// The library means `switches`, which keeps the laws. This does nothing: its contract ties that definition and its proof, which
    /// the `impl` for all `OneType` does not name, to the code.
    pub fn means_switches(&self)
        ensures meaning { ⟦<Switches as DatatypeLibrary>⟧.meaning self.now ≡ switches }
        ensures lawful { Lawful switches }
    {}
}
