ghost use Rattle.std.specs.Prelude.{◌^◌, ◌<◌, ◌≤◌};
ghost use Rattle.decimals.specs.NormalForm.{NoLastZero, PositiveZero};

/// A decimal in its normal form, which the type holds: the digits as one number below 10^18, how many of them stand after
/// the point, 0 to 18 and the last of them not 0, and the sign, which is plus at zero. So two are equal in value exactly if
/// their fields are equal.
#[derive(Clone, Copy, PartialEq, Eq, Debug)]
pub struct Decimal {
    pub negative: bool,
    pub magnitude: u64,
    pub fraction: u8,
    ghost bounded: { magnitude < 10 ^ 18 },
    ghost short: { fraction ≤ 18 },
    ghost trimmed: { NoLastZero magnitude fraction },
    ghost positive: { PositiveZero magnitude negative },
}
