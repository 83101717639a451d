// Water: a depth over an area is a volume. All three are whole numbers.

ghost use Rattle.quantity.specs.Amounts.{volume_of};
ghost use Rattle.std.specs.Prelude.{◌≡◌};

use std::ops::Mul;

// A depth of water in points; a point is 0.01 mm.
#[derive(Clone, Copy, PartialEq, Eq, PartialOrd, Ord, Debug)]
pub struct Depth(pub u32);

// An area in square metres.
#[derive(Clone, Copy, PartialEq, Eq, PartialOrd, Ord, Debug)]
pub struct Area(pub u32);

// A volume of water in centilitres: one point over one square metre.
#[derive(Clone, Copy, PartialEq, Eq, PartialOrd, Ord, Debug)]
pub struct Centilitres(pub u64);

impl Mul<Area> for Depth {
    type Output = Centilitres;

    ghost mul_gives = { λ depth area volume. volume.0 ≡ volume_of depth.0 area.0 };

    fn mul(self, area: Area) -> Centilitres {
        Centilitres(u64::from(self.0) * u64::from(area.0))
    }
}
