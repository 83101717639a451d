// The areas of a node: as a caller gives them, and once they are checked.

ghost use Rattle.card.specs.Limits.{AreasWithin, all_areas, hard_areas};
ghost use Rattle.std.specs.Prelude.{◌≡◌, MatchOption};

use quantity::water::Area;

const LARGEST_AREA: u64 = 100_000_000;

#[derive(Clone, Copy)]
pub struct Areas {
    pub open: Area,
    pub paved: Area,
    pub sewer: Area,
    pub unpaved: Area,
}

// Areas that are within their limits.
// A type of its own: a generic one of a lower crate could have no calls of its own here, and lost `Copy` (tried). Checked by
// `check`, the word of the field, and not by `TryFrom`.
#[derive(Clone, Copy)]
pub struct CheckedAreas {
    pub(crate) numbers: Areas,
    ghost within: { AreasWithin numbers },
}

impl Areas {
    // The areas with their numbers checked; none if one is outside its limits. An area above the limit makes the sum so.
    pub fn check(self) -> Option<CheckedAreas>
        ensures { MatchOption result (AreasWithin self → ⊥) (λ areas. AreasWithin self × (areas.numbers ≡ self)) }
    {
        let hard = u64::from(self.open.0) + u64::from(self.paved.0) + u64::from(self.sewer.0);
        let total = hard + u64::from(self.unpaved.0);
        if total == 0 || total > LARGEST_AREA {
            return None;
        }
        Some(CheckedAreas { numbers: self })
    }
}

impl CheckedAreas {
    // The numbers that were checked.
    pub fn numbers(&self) -> Areas
        ensures same { result ≡ self.now.numbers }
        ensures within { AreasWithin result }
    {
        self.numbers
    }

    // All areas together.
    pub fn total(&self) -> Area
        ensures { result.0 ≡ all_areas self.now.numbers }
    {
        // on the insides: an operator would have to ask for a bound, and by a rule of the project no public call does
        Area(self.hard().0 + self.numbers.unpaved.0)
    }

    // The open, paved and sewer areas together.
    pub fn hard(&self) -> Area
        ensures { result.0 ≡ hard_areas self.now.numbers }
    {
        Area(self.numbers.open.0 + self.numbers.paved.0 + self.numbers.sewer.0)
    }
}
