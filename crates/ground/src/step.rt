// One step of the ground under a forcing.

ghost use Rattle.ground.specs.Answers.{amounts};
ghost use Rattle.ground.specs.Laws.{EveryAdmissible, Balance, StaysWithin, MoreGivesNoLess};
ghost use Rattle.ground.specs.Rules.{soaked};
ghost use Rattle.std.specs.Prelude.{◌≡◌};

use crate::forcing::CheckedForcing;
use crate::ground::Ground;
use quantity::water::Depth;

// What a step moves, and the ground that it leaves.
#[derive(Clone, Copy)]
pub struct Soaking {
    pub infiltration: Depth,
    // what runs off the surface
    pub excess: Depth,
    pub transpiration: Depth,
    pub percolation: Depth,
    pub sinking: Depth,
    pub ground: Ground,
}

impl Ground {
    // The step under a forcing. It changes nothing: the answer has the ground that the step leaves.
    pub fn after(&self, forcing: &CheckedForcing) -> Soaking
        ensures value { amounts result ≡ soaked self.now.soil.numbers self.now.moisture.0 self.now.depression.0 forcing.now.numbers }
        ensures same_soil { result.ground.soil ≡ self.now.soil }
        ensures balance { EveryAdmissible Balance }
        ensures within { EveryAdmissible StaysWithin }
        ensures more { EveryAdmissible MoreGivesNoLess }
    {
        // on the insides: an operator would have to ask for a bound, and by a rule of the project no public call does
        let soil = self.soil;
        let surface = Depth(forcing.numbers.rain.0 + self.depression.0);
        let infiltration = soil.infiltration(self.moisture, surface);
        let staying = Depth(surface.0 - infiltration.0);
        let infiltrated = Depth(self.moisture.0 + infiltration.0);
        let transpiration = soil.transpiration(infiltrated, forcing);
        let transpired = Depth(infiltrated.0 - transpiration.0);
        let percolation = soil.percolation(transpired);
        let percolated = Depth(transpired.0 - percolation.0);
        let sinking = soil.sinking(percolated, forcing);
        Soaking {
            infiltration,
            excess: soil.excess(staying),
            transpiration,
            percolation,
            sinking,
            ground: Ground {
                soil,
                moisture: Depth(percolated.0 - sinking.0),
                depression: soil.depression_storage(staying),
            },
        }
    }
}
