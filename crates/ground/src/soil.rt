// The soil of a node: its numbers as a caller gives them, and once they are checked.

ghost use Rattle.ground.specs.Limits.{Admissible};
ghost use Rattle.std.specs.Prelude.{◌≡◌, MatchOption};

use quantity::water::Depth;

const LARGEST_SATURATION: Depth = Depth(200_000);

// of infiltration and of depression storage
const LARGEST_LIMIT: Depth = Depth(100_000);

// in hundredths of the reference evaporation
const LARGEST_CROP_FACTOR: u32 = 200;

// in hundredths
const LARGEST_SLOW_SHARE: u32 = 100;

// Wilting point, field capacity and saturation are depths of soil moisture. The limits of infiltration and percolation
// are for one step, that of depression storage is for all time.
#[derive(Clone, Copy)]
pub struct Soil {
    pub wilting_point: Depth,
    pub field_capacity: Depth,
    pub saturation: Depth,
    pub infiltration_limit: Depth,
    pub percolation_limit: Depth,
    pub depression_limit: Depth,
    // in hundredths of the reference evaporation
    pub crop_factor: u32,
    // in hundredths
    pub slow_share: u32,
}

// A soil whose numbers are within their limits.
// A type of its own: a generic one of a lower crate could have no calls of its own here, and lost `Copy` (tried). Checked by
// `check`, the word of the field, and not by `TryFrom`.
#[derive(Clone, Copy)]
pub struct CheckedSoil {
    pub(crate) numbers: Soil,
    ghost admissible: { Admissible numbers },
}

impl Soil {
    // The soil with its numbers checked; none if one is outside its limits.
    pub fn check(self) -> Option<CheckedSoil>
        ensures { MatchOption result (Admissible self → ⊥) (λ soil. Admissible self × (soil.numbers ≡ self)) }
    {
        if self.wilting_point > self.field_capacity
            || self.field_capacity >= self.saturation
            || self.saturation > LARGEST_SATURATION
            || self.infiltration_limit > LARGEST_LIMIT
            || self.depression_limit > LARGEST_LIMIT
            // on the insides: an operator would have to ask for a bound, and by a rule of the project no public call does
            || self.percolation_limit.0 > self.saturation.0 - self.field_capacity.0
            || self.crop_factor > LARGEST_CROP_FACTOR
            || self.slow_share > LARGEST_SLOW_SHARE
        {
            return None;
        }
        Some(CheckedSoil { numbers: self })
    }
}

impl CheckedSoil {
    // The numbers that were checked.
    pub fn numbers(&self) -> Soil
        ensures same { result ≡ self.now.numbers }
        ensures admissible { Admissible result }
    {
        self.numbers
    }
}
