// A reservoir's fault with the place of that reservoir, told by three numbers as every refusal is.

ghost use Rattle.places.specs.Faults.{placed, placed_refusal};
ghost use Rattle.std.specs.Prelude.{◌≡◌};

use crate::place::Place;
use reservoir::fault::{Fault, Refusal};

#[derive(Clone, Copy, PartialEq, Eq, Debug)]
pub struct PlacedFault {
    pub fault: Fault,
    pub place: Place,
}

impl From<PlacedFault> for Refusal {
    ghost from_gives = { λ fault told. told ≡ placed_refusal fault };

    fn from(fault: PlacedFault) -> Refusal {
        Refusal {
            place: u8::from(fault.place),
            ..Refusal::from(fault.fault)
        }
    }
}

// An answer of the reservoir at a place: a fault gets the place. Three reservoirs side by side have their own such function: a
// fault generic over the place would be foreign here, and could not be converted to a refusal.
pub fn at<T>(answer: Result<T, Fault>, place: Place) -> Result<T, PlacedFault>
    ensures { result ≡ placed answer place }
{
    answer.map_err(|fault| PlacedFault { fault, place })
}
