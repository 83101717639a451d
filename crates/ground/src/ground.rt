// The ground of a node: its soil, the soil moisture, and the depression storage on the surface.

ghost use Rattle.ground.specs.Limits.{Holds, field_capacity};
ghost use Rattle.std.specs.Prelude.{◌≡◌};

use crate::soil::CheckedSoil;
use quantity::water::Depth;

#[derive(Clone, Copy)]
pub struct Ground {
    pub(crate) soil: CheckedSoil,
    pub(crate) moisture: Depth,
    pub(crate) depression: Depth,
    ghost within: { Holds soil.numbers moisture.0 depression.0 },
}

impl Ground {
    // The ground as it is opened: at field capacity, with nothing in depression storage.
    pub fn new(soil: CheckedSoil) -> Ground
        ensures same_soil { result.soil ≡ soil }
        ensures at_field_capacity { result.moisture.0 ≡ field_capacity soil.numbers }
        ensures none_stored { result.depression.0 ≡ 0 }
    {
        Ground {
            soil,
            moisture: soil.numbers.field_capacity,
            depression: Depth(0),
        }
    }

    pub fn soil(&self) -> CheckedSoil
        ensures { result ≡ self.now.soil }
    {
        self.soil
    }

    pub fn moisture(&self) -> Depth
        ensures { result ≡ self.now.moisture }
    {
        self.moisture
    }

    pub fn depression(&self) -> Depth
        ensures { result ≡ self.now.depression }
    {
        self.depression
    }
}
