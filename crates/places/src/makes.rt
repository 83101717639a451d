// The makes of a district: it fixes the make of reservoir in each of the six places.

use reservoir::interface::Reservoir;

pub trait Makes {
    type Open: Reservoir;

    type Paved: Reservoir;

    type Sewer: Reservoir;

    type Surface: Reservoir;

    type Quick: Reservoir;

    type Slow: Reservoir;
}
