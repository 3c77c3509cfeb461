ghost use Rattle.std.specs.Prelude.{◌≡◌, List, [], ◌∷◌, ◌++◌, Some};
ghost use Rattle.datatypes.specs.Comparison.{answer};
ghost use Rattle.datatypes.specs.Meaning.{Bytes};
ghost use Rattle.parameters.specs.Rows.{outcome_of};
ghost use Rattle.parameters.specs.Tally.{Counts, HasRoom, tally_text};

use datatypes::Comparison;
use std::fmt;

// How many lines there are, and how many of each outcome.
#[derive(Clone, Copy, Default)]
pub(crate) struct Tally {
    pub lines: u64,
    pub same: u64,
    pub different: u64,
    pub not_compared: u64,
}

impl Tally {
    // Counts a line more, by the comparison that was made of it.
    pub(crate) fn count(&mut self, comparison: Option<Comparison>)
        requires { HasRoom self.old }
        ensures { (ls : List Bytes) (line : Bytes) → Counts self.old ls → (answer comparison).number ≡ outcome_of line → Counts self.new (ls ++ line ∷ []) }
    {
        self.lines += 1;
        match comparison {
            Some(Comparison::Same) => self.same += 1,
            Some(Comparison::Different { .. }) => self.different += 1,
            None => self.not_compared += 1,
        }
    }
}

impl fmt::Display for Tally {
    ghost output = { λ t. Some (tally_text t) };

    fn fmt<W: fmt::Write>(&self, f: &mut fmt::Formatter<W>) -> fmt::Result {
        write!(
            f,
            "{} lines: {} same, {} different, {} not compared",
            self.lines, self.same, self.different, self.not_compared
        )
    }
}
