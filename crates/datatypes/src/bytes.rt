ghost use Rattle.std.specs.Prelude.{◌≡◌};
ghost use Rattle.datatypes.specs.Blanks.{is_blank, drop_blanks, drop_end_blanks, trim};

/// Is the byte a blank: 20, 09, 0A or 0D?
pub fn is_blank(b: u8) -> bool
    ensures { result ≡ is_blank b }
{
    // Joined by `|`, so that no jump hangs on which blank it is: `matches!` and `||` are built with a jump for each, and a string of
    // alternating blanks can then take three times as long.
    (b == b' ') | (b == b'\t') | (b == b'\n') | (b == b'\r')
}

/// A string without the blanks at both ends.
pub fn trim_blanks(s: &[u8]) -> &[u8]
    ensures { result.now ≡ trim s.now }
{
    skip_end_blanks(skip_blanks(s))
}

// A string without the blanks at its front.
fn skip_blanks(s: &[u8]) -> &[u8]
    ensures { result.now ≡ drop_blanks s.now }
{
    match s.iter().position(|b| !is_blank(*b)) {
        Some(blanks) => &s[blanks..],
        None => &[],
    }
}

// A string without the blanks at its end. One function over either direction would be a generic one with four clauses on its
// iterator, for the one call that the two share.
fn skip_end_blanks(s: &[u8]) -> &[u8]
    ensures { result.now ≡ drop_end_blanks s.now }
{
    match s.iter().rev().position(|b| !is_blank(*b)) {
        Some(blanks) => &s[..s.len() - blanks],
        None => &[],
    }
}
