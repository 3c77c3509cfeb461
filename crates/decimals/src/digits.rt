ghost use Rattle.std.specs.Prelude.{◌^◌, ◌<◌, ◌≤◌};
ghost use Rattle.std.specs.Option.{unwrap_or};

/// The digits of a numeral read so far: the number that they write, how many they are and, once there was a point, how many
/// of them came after it.
#[derive(Clone, Copy)]
pub(crate) struct Digits {
    pub(crate) magnitude: u64,
    pub(crate) count: u8,
    pub(crate) fraction: Option<u8>,
    ghost few: { count ≤ 18 },
    ghost small: { magnitude < 10 ^ count },
    ghost part: { unwrap_or fraction 0 ≤ count },
}
