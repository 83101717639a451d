// What a step under a forcing would do to a node, before any reservoir is asked.

ghost use Rattle.node.specs.Answers.{Plans, store};

use crate::hard::hard_surface_evaporation;
use crate::node::Node;
use ground::forcing::CheckedForcing;
use ground::ground::Ground;
use places::interface::Places;
use places::volumes::Volumes;
use quantity::water::{Centilitres, Depth};

#[derive(Clone, Copy)]
pub struct Plan {
    // what goes into each reservoir
    pub inflows: Volumes,
    pub rising: Centilitres,
    pub evaporated: Centilitres,
    pub sunk: Centilitres,
    // the ground that the step leaves
    pub ground: Ground,
}

impl<P: Places> Node<P> {
    pub(crate) fn plan(&self, forcing: &CheckedForcing) -> Plan
        ensures { Plans (store P.Places.reservoirs self.now) forcing.now.numbers result }
    {
        let areas = self.areas.numbers();
        let soaking = self.ground.after(forcing);
        let evaporation = hard_surface_evaporation(forcing);
        // on the insides: an operator would have to ask for a bound, and by a rule of the project no public call does
        let runoff = Depth(forcing.numbers().rain.0 - evaporation.0);
        let percolated = soaking.percolation * areas.unpaved;
        let slow = self.ground.soil().slow_part(percolated);
        Plan {
            inflows: Volumes {
                open: runoff * areas.open,
                paved: runoff * areas.paved,
                sewer: runoff * areas.sewer,
                surface: soaking.excess * areas.unpaved,
                quick: Centilitres(percolated.0 - slow.0),
                slow,
            },
            rising: forcing.rising_seepage() * self.areas.total(),
            evaporated: Centilitres(
                (evaporation * self.areas.hard()).0 + (soaking.transpiration * areas.unpaved).0,
            ),
            sunk: soaking.sinking * areas.unpaved,
            ground: soaking.ground,
        }
    }
}
