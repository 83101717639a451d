// The forcing of one step: its numbers as a caller gives them, and once they are checked.

ghost use Rattle.ground.specs.Limits.{InRange};
ghost use Rattle.ground.specs.Seepage.{rising_part, sinking_part, SeepageLaw};
ghost use Rattle.std.specs.Prelude.{◌≡◌, MatchOption};

use quantity::water::Depth;

const LARGEST_RAIN: Depth = Depth(100_000);

const LARGEST_EVAPORATION: Depth = Depth(10_000);

// in points, both of what rises and of what sinks
const LARGEST_SEEPAGE: i32 = 10_000;

#[derive(Clone, Copy)]
pub struct Forcing {
    pub rain: Depth,
    // reference evaporation
    pub evaporation: Depth,
    // in points: above 0 it rises, below 0 it sinks
    pub seepage: i32,
}

// A forcing whose numbers are within their range.
// A type of its own: a generic one of a lower crate could have no calls of its own here, and lost `Copy` (tried). Checked by
// `check`, the word of the field, and not by `TryFrom`.
#[derive(Clone, Copy)]
pub struct CheckedForcing {
    pub(crate) numbers: Forcing,
    ghost in_range: { InRange numbers },
}

impl Forcing {
    // The forcing with its numbers checked; none if one is out of range.
    pub fn check(self) -> Option<CheckedForcing>
        ensures { MatchOption result (InRange self → ⊥) (λ forcing. InRange self × (forcing.numbers ≡ self)) }
    {
        if self.rain > LARGEST_RAIN
            || self.evaporation > LARGEST_EVAPORATION
            || self.seepage < -LARGEST_SEEPAGE
            || self.seepage > LARGEST_SEEPAGE
        {
            return None;
        }
        Some(CheckedForcing { numbers: self })
    }

    // The seepage that rises; 0 where it sinks.
    pub fn rising_seepage(&self) -> Depth
        ensures { result.0 ≡ rising_part self.now.seepage }
    {
        Depth(self.seepage.max(0) as u32)
    }
}

impl CheckedForcing {
    // The numbers that were checked.
    pub fn numbers(&self) -> Forcing
        ensures same { result ≡ self.now.numbers }
        ensures in_range { InRange result }
    {
        self.numbers
    }

    // The seepage that rises; 0 where it sinks.
    pub fn rising_seepage(&self) -> Depth
        ensures { result.0 ≡ rising_part self.now.numbers.seepage }
    {
        Forcing::rising_seepage(&self.numbers)
    }

    // The seepage that sinks; 0 where it rises.
    pub fn sinking_seepage(&self) -> Depth
        ensures value { result.0 ≡ sinking_part self.now.numbers.seepage }
        ensures law { SeepageLaw }
    {
        Depth((-self.numbers.seepage).max(0) as u32)
    }
}
