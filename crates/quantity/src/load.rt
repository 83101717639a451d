// What water carries: a volume at a concentration is a load. Water and load meet in this product alone.

ghost use Rattle.quantity.specs.Amounts.{load_of};
ghost use Rattle.std.specs.Prelude.{◌≡◌};

use crate::water::Centilitres;
use std::ops::Mul;

// A concentration in hundredths of a milligram per litre.
#[derive(Clone, Copy, PartialEq, Eq, PartialOrd, Ord, Debug)]
pub struct Concentration(pub u32);

// A load in tenths of a microgram: what one centilitre carries at one hundredth of a milligram per litre.
// Wide enough that no product of a volume and a concentration passes it.
#[derive(Clone, Copy, PartialEq, Eq, PartialOrd, Ord, Debug)]
pub struct Load(pub u128);

impl Mul<Concentration> for Centilitres {
    type Output = Load;

    ghost mul_gives = { λ volume concentration load. load.0 ≡ load_of volume.0 concentration.0 };

    fn mul(self, concentration: Concentration) -> Load {
        Load(u128::from(self.0) * u128::from(concentration.0))
    }
}
