// Hard surface: open water, paved and sewer area.

ghost use Rattle.node.specs.Rules.{hard_evaporation};
ghost use Rattle.std.specs.Prelude.{◌≡◌};

use ground::forcing::CheckedForcing;
use quantity::water::Depth;

// What evaporates from hard surface: the demand, which is 125 hundredths of the reference evaporation, up to the rain.
pub fn hard_surface_evaporation(forcing: &CheckedForcing) -> Depth
    ensures { result.0 ≡ hard_evaporation forcing.now.numbers }
{
    let numbers = forcing.numbers();
    let demand = Depth(125 * numbers.evaporation.0 / 100);
    numbers.rain.min(demand)
}
