ghost use Rattle.std.specs.Prelude.{◌≡◌};
ghost use Rattle.datatypes.specs.Names.{same_name};

/// What a type is called: the URI of its library, and its own name.
#[derive(Clone, Copy, PartialEq, Eq, Debug)]
pub struct TypeName<'a> {
    pub uri: &'a [u8],
    pub name: &'a [u8],
}

/// Are a URI and a name the two that a type has?
pub fn same_name(own_uri: &[u8], own_name: &[u8], uri: &[u8], name: &[u8]) -> bool
    ensures { result ≡ same_name own_uri.now own_name.now uri.now name.now }
{
    let own = TypeName {
        uri: own_uri,
        name: own_name,
    };
    TypeName { uri, name } == own
}
