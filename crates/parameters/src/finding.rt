ghost use Rattle.std.specs.Prelude.{◌≡◌, ◌++◌, OnOk};
ghost use Rattle.datatypes.specs.Comparison.{answer};
ghost use Rattle.parameters.specs.Held.{comparison_of, comparison_text, finding_text};
ghost use Rattle.parameters.specs.Lines.{fields_of};
ghost use Rattle.parameters.specs.Report.{found};
ghost use Rattle.parameters.specs.Rows.{row_of, outcome_of};

use crate::rows::{judge, split_row};
use datatypes::Comparison;
use std::alloc::AllocError;

// What is found of a line.
#[derive(Clone, Copy)]
pub(crate) enum Finding<'a> {
    NotThreeFields,
    NoType {
        name: &'a [u8],
    },
    Compared {
        name: &'a [u8],
        comparison: Comparison,
    },
}

impl<'a> Finding<'a> {
    pub(crate) fn of(line: &'a [u8]) -> Self
        ensures text { finding_text result ≡ found (row_of (fields_of line.now)) }
        ensures outcome { (answer (comparison_of result)).number ≡ outcome_of line.now }
    {
        let Some(row) = split_row(line) else {
            return Finding::NotThreeFields;
        };
        let name = row.name;
        match judge(row) {
            Some(comparison) => Finding::Compared { name, comparison },
            None => Finding::NoType { name },
        }
    }

    // The comparison, if there was one.
    pub(crate) fn comparison(&self) -> Option<Comparison>
        ensures { result ≡ comparison_of self.now }
    {
        match self {
            Finding::Compared { comparison, .. } => Some(*comparison),
            _ => None,
        }
    }

    // Writes what is found behind a text. It is no `Display`, since the name of a type is bytes that need not be text.
    pub(crate) fn write_to(&self, text: &mut Vec<u8>) -> Result<(), AllocError>
        ensures { OnOk result (text.new.items ≡ text.old.items ++ finding_text self.now) }
    {
        match self {
            Finding::NotThreeFields => text.extend_from_slice(b"not three fields"),
            Finding::NoType { name } => {
                text.extend_from_slice(b"no type ")?;
                text.extend_from_slice(name)
            }
            Finding::Compared { name, comparison } => {
                text.extend_from_slice(name)?;
                text.extend_from_slice(describe(*comparison))
            }
        }
    }
}

// What is written of a comparison: one of five constants, which a `Display` would first write into a text of its own.
fn describe(comparison: Comparison) -> &'static [u8]
    ensures { result.now ≡ comparison_text comparison }
{
    match comparison {
        Comparison::Same => b": left allowed, right allowed, same",
        Comparison::Different {
            left_allowed,
            right_allowed,
        } => match (left_allowed, right_allowed) {
            (true, true) => b": left allowed, right allowed, different",
            (true, false) => b": left allowed, right not allowed, different",
            (false, true) => b": left not allowed, right allowed, different",
            (false, false) => b": left not allowed, right not allowed, different",
        },
    }
}
