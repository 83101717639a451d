// How a program puts its nodes together: which six reservoirs it makes from a sheet's fractions. Runs of sheets are generic over
// it.

ghost use Rattle.session.specs.Equipments.{Equipping, equipped_with};
ghost use Rattle.std.specs.Prelude.{◌≡◌};

use command::command::{Fractions, PLACES};
use places::fault::PlacedFault;
use places::interface::Places;

pub trait Equipment {
    type Nodes: Places;

    ghost equipped: { Equipping };

    // The reservoirs of six places, or the fault of the lowest place whose fractions make none.
    fn equip(fractions: &[Fractions; PLACES]) -> Result<Self::Nodes, PlacedFault>
        ensures { equipped_with Self.Nodes.Places.reservoirs result ≡ equipped fractions.now };
}
