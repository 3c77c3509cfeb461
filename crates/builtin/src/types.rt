ghost use Rattle.std.specs.Prelude.{◌≡◌};
ghost use Rattle.std.specs.Option.{option_map};
ghost use Rattle.datatypes.specs.BuiltIn.{built_in};
ghost use Rattle.builtin.specs.Types.{number_of, Decodes};

use datatypes::TypeName;

/// The types of the library, with their numbers.
#[derive(Clone, Copy, PartialEq, Eq, Debug)]
pub(crate) enum BuiltInType {
    String = 1,
    Token = 2,
}

/// By that number the library has no type.
#[derive(Clone, Copy, PartialEq, Eq, Debug)]
pub(crate) struct NoType;

impl TryFrom<u32> for BuiltInType {
    type Error = NoType;

    ghost try_from_gives = { Decodes };

    fn try_from(number: u32) -> Result<Self, NoType> {
        match number {
            1 => Ok(BuiltInType::String),
            2 => Ok(BuiltInType::Token),
            _ => Err(NoType),
        }
    }
}

impl BuiltInType {
    /// The type that has a name.
    pub(crate) fn named(type_name: TypeName<'_>) -> Option<BuiltInType>
        ensures { option_map number_of result ≡ built_in.type_of type_name.entry.uri.now type_name.entry.name.now }
    {
        match (type_name.uri, type_name.name) {
            (b"", b"string") => Some(BuiltInType::String),
            (b"", b"token") => Some(BuiltInType::Token),
            _ => None,
        }
    }
}
