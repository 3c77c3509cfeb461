//! The built-in datatype library: strings and tokens.
#![tactic(auto)]

ghost use Rattle.builtin.specs.Laws.{built_in-Lawful};
ghost use Rattle.datatypes.specs.BuiltIn.{built_in};

mod token;
mod types;

use datatypes::{DatatypeLibrary, TypeName};
use token::same_tokens;
use types::BuiltInType;

/// The library of the empty URI. Its types `string` and `token` allow every string; strings compare by their bytes, tokens
/// by their bytes once the blanks at both ends are dropped and each run of blanks inside is one byte 20.
#[derive(Clone, Copy)]
pub struct BuiltIn;

impl DatatypeLibrary for BuiltIn {
    ghost meaning = { λ _. built_in };

    ghost lawful = { λ _. built_in-Lawful };

    fn find(&self, type_name: TypeName<'_>) -> Option<u32> {
        BuiltInType::named(type_name).map(|datatype| datatype as u32)
    }

    fn allows(&self, datatype: u32, _s: &[u8]) -> bool {
        BuiltInType::try_from(datatype).is_ok()
    }

    fn same(&self, datatype: u32, a: &[u8], b: &[u8]) -> bool {
        match BuiltInType::try_from(datatype) {
            Ok(BuiltInType::String) => a == b,
            Ok(BuiltInType::Token) => same_tokens(a, b),
            Err(_) => false,
        }
    }

    fn allows_any(&self, datatype: u32) -> bool {
        self.allows(datatype, b"")
    }
}
