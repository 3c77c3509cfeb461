ghost use Rattle.std.specs.Prelude.{◌≡◌, true};
ghost use Rattle.decimals.specs.Held.{held};
ghost use Rattle.decimals.specs.Digits.{Pushed, ReadsDigits, number};
ghost use Rattle.datatypes.specs.Numeral.{decimal_of, equal_value, starts_minus, unsigned};
ghost use Rattle.datatypes.specs.Values.{Reads};

use crate::decimal::Decimal;
use crate::digits::Digits;
use datatypes::trim_blanks;

const MOST_DIGITS: u8 = 18;

impl Decimal {
    /// Reads a decimal: blanks at both ends are passed over; a sign may stand first; then come digits, at least one and at
    /// most 18, leading and last zeros among them, and a point may stand before, between or after them.
    // An `Option` and no `TryFrom`, since an error would have nothing to say.
    pub fn parse(s: &[u8]) -> Option<Decimal>
        ensures { Reads equal_value held (decimal_of s.now) result }
    {
        let (negative, numeral) = split_sign(trim_blanks(s));
        let digits = Digits::read(numeral)?;
        Some(Decimal::normal(negative, digits))
    }

    /// Are the two equal in value?
    // The derived equality of the fields, which decides it in the normal form: kept beside `==` for the contract.
    #[tactic(auto, using(crate::proofs::NormalForm::same_fields))]
    pub fn same_value(&self, other: &Decimal) -> bool
        ensures { result ≡ equal_value (held self.now) (held other.now) }
    {
        self == other
    }

    // The normal form of the number that a sign and digits write.
    fn normal(negative: bool, digits: Digits) -> Decimal
        ensures { equal_value (held result) (number negative digits) ≡ true }
    {
        let mut magnitude = digits.magnitude;
        let mut fraction = digits.fraction.unwrap_or(0);
        // This divides a number and goes over no sequence, so that there is nothing to iterate over.
        while fraction > 0 && magnitude % 10 == 0 {
            magnitude /= 10;
            fraction -= 1;
        }
        Decimal {
            negative: negative && magnitude > 0,
            magnitude,
            fraction,
        }
    }
}

// Is there a minus at the front, and what stands after the sign, if there is one? The flag is the sign, and a string is there for
// either: that is the shape of no `Option` or `Result`.
fn split_sign(s: &[u8]) -> (bool, &[u8])
    ensures sign { result.0 ≡ starts_minus s.now }
    ensures rest { result.1.now ≡ unsigned s.now }
{
    match s {
        [b'-', rest @ ..] => (true, rest),
        [b'+', rest @ ..] => (false, rest),
        _ => (false, s),
    }
}

impl Digits {
    // The digits of a whole numeral.
    fn read(numeral: &[u8]) -> Option<Digits>
        ensures { ReadsDigits numeral.now result }
    {
        // No `Default`: none is derived beside ghost fields, and one by hand would want a contract that says what this says.
        let mut digits = Digits {
            magnitude: 0,
            count: 0,
            fraction: None,
        };
        for b in numeral {
            digits = digits.push(*b)?;
        }
        (digits.count > 0).then_some(digits)
    }

    // The digits with one byte more, or none where no numeral goes on so.
    fn push(self, b: u8) -> Option<Digits>
        ensures { Pushed self b result }
    {
        match b {
            b'0'..=b'9' if self.count < MOST_DIGITS => Some(Digits {
                magnitude: self.magnitude * 10 + u64::from(b - b'0'),
                count: self.count + 1,
                fraction: self.fraction.map(|n| n + 1),
            }),
            // Written out, since the toolchain has no `..self` where a struct has ghost fields.
            b'.' if self.fraction.is_none() => Some(Digits {
                magnitude: self.magnitude,
                count: self.count,
                fraction: Some(0),
            }),
            _ => None,
        }
    }
}
