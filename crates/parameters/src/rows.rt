ghost use Rattle.std.specs.Prelude.{◌≡◌};
ghost use Rattle.std.specs.Option.{option_map};
ghost use Rattle.parameters.specs.Held.{named};
ghost use Rattle.parameters.specs.Lines.{fields_of};
ghost use Rattle.parameters.specs.Rows.{row_of, judged};
ghost use Rattle.datatypes.specs.Comparison.{answer};

use builtin::BuiltIn;
use datatypes::{Comparison, TypeName, XML_SCHEMA_DATATYPES, compare};
use decimals::Decimals;

// The values that two systems hold for one parameter, and the name of their type.
#[derive(Clone, Copy)]
pub(crate) struct ParameterRow<'a> {
    pub name: &'a [u8],
    pub left: &'a [u8],
    pub right: &'a [u8],
}

// The row that a line writes, if it has exactly three fields.
pub(crate) fn split_row(line: &[u8]) -> Option<ParameterRow<'_>>
    ensures { option_map named result ≡ row_of (fields_of line.now) }
{
    let mut fields = line.split(|b| *b == b'\t');
    match (fields.next(), fields.next(), fields.next(), fields.next()) {
        (Some(name), Some(left), Some(right), None) => Some(ParameterRow { name, left, right }),
        _ => None,
    }
}

// What the built-in library says of a row, or else the library of decimals; none where neither has the type.
pub(crate) fn judge(row: ParameterRow<'_>) -> Option<Comparison>
    ensures { answer result ≡ judged (named row.entry) }
{
    let ParameterRow { name, left, right } = row;
    compare(&BuiltIn, TypeName { uri: b"", name }, left, right).or_else(|| {
        let uri = XML_SCHEMA_DATATYPES;
        compare(&Decimals, TypeName { uri, name }, left, right)
    })
}
