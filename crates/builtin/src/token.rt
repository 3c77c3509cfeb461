ghost use Rattle.std.specs.Prelude.{◌≡◌};
ghost use Rattle.std.specs.Str.{bytes_eq};
ghost use Rattle.datatypes.specs.BuiltIn.{collapse};
ghost use Rattle.builtin.specs.Collapsed.{ahead, FirstSolid};
ghost use Rattle.std.specs.Iterator.{YieldsFirst, item_count};

use datatypes::is_blank;

/// The bytes of a string as a token has them: without the blanks at both ends, and with one byte 20 for each run of blanks
/// inside. Each byte of the string is read once, and nothing is copied.
#[derive(Drop)]
pub(crate) struct Collapsed<'a> {
    // A byte that has been read and comes next.
    held: Option<u8>,
    // The bytes that have not been read.
    rest: &'a [u8],
}

impl<'a> Collapsed<'a> {
    pub(crate) fn new(s: &'a [u8]) -> Self
        ensures { ahead result ≡ collapse s.now }
    {
        match first_solid(s) {
            Some((b, rest)) => Collapsed {
                held: Some(b),
                rest,
            },
            None => Collapsed {
                held: None,
                rest: &[],
            },
        }
    }
}

impl Iterator for Collapsed<'_> {
    type Item = u8;

    ghost next_gives = { YieldsFirst ahead };

    ghost remaining = { item_count ahead };

    fn next(&mut self) -> Option<u8> {
        if let Some(b) = self.held.take() {
            return Some(b);
        }
        let (b, rest) = first_solid(self.rest)?;
        let after_blanks = rest.len() + 1 < self.rest.len();
        self.rest = rest;
        if after_blanks {
            self.held = Some(b);
            return Some(b' ');
        }
        Some(b)
    }
}

// The first byte of a string that is no blank, and what stands after it.
fn first_solid(s: &[u8]) -> Option<(u8, &[u8])>
    ensures { FirstSolid s.now result }
{
    let mut bytes = s.iter();
    let b = bytes.find(|b| !is_blank(**b))?;
    Some((*b, bytes.as_slice()))
}

/// Are two strings same as tokens?
pub(crate) fn same_tokens(a: &[u8], b: &[u8]) -> bool
    ensures { result ≡ bytes_eq (collapse a.now) (collapse b.now) }
{
    Collapsed::new(a).eq(Collapsed::new(b))
}
