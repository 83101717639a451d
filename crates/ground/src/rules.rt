// The rules of one step, one function each. A checked soil's limits keep every sum and product small.

ghost use Rattle.ground.specs.Laws.{EveryAdmissible, InfiltrationLaws, SurfaceLaws, TranspirationLaws};
ghost use Rattle.ground.specs.Laws.{PercolationLaws, SinkingLaws, SlowShareLaws};
ghost use Rattle.ground.specs.Rules.{infiltration_of, depression_of, excess_of, transpiration_of};
ghost use Rattle.ground.specs.Rules.{percolation_of, sinking_of, slow_part};
ghost use Rattle.ground.specs.Seepage.{sinking_part};
ghost use Rattle.std.specs.Prelude.{◌≡◌};

use crate::forcing::CheckedForcing;
use crate::soil::CheckedSoil;
use quantity::water::{Centilitres, Depth};

// Sums and differences stand on the insides: an operator would have to ask for a bound, and by a rule of the project no public
// call does.
impl CheckedSoil {
    // What infiltrates of the water on the surface.
    pub fn infiltration(&self, moisture: Depth, surface: Depth) -> Depth
        ensures value { result.0 ≡ infiltration_of self.now.numbers moisture.0 surface.0 }
        ensures laws { EveryAdmissible InfiltrationLaws }
    {
        let soil = self.numbers;
        let room = soil.saturation.0.saturating_sub(moisture.0) + soil.percolation_limit.0;
        surface.min(soil.infiltration_limit).min(Depth(room))
    }

    // What the depression storage keeps of the water that stays on the surface.
    pub fn depression_storage(&self, staying: Depth) -> Depth
        ensures { result.0 ≡ depression_of self.now.numbers staying.0 }
    {
        staying.min(self.numbers.depression_limit)
    }

    // What runs off of the water that stays on the surface.
    pub fn excess(&self, staying: Depth) -> Depth
        ensures value { result.0 ≡ excess_of self.now.numbers staying.0 }
        ensures laws { EveryAdmissible SurfaceLaws }
    {
        Depth(staying.0.saturating_sub(self.numbers.depression_limit.0))
    }

    // What the crop transpires.
    pub fn transpiration(&self, moisture: Depth, forcing: &CheckedForcing) -> Depth
        ensures value { result.0 ≡ transpiration_of self.now.numbers moisture.0 forcing.now.numbers.evaporation.0 }
        ensures laws { EveryAdmissible TranspirationLaws }
    {
        let demand = self.numbers.crop_factor * forcing.numbers.evaporation.0 / 100;
        let available = moisture.0.saturating_sub(self.numbers.wilting_point.0);
        Depth(demand.min(available))
    }

    // What percolates below the soil.
    pub fn percolation(&self, moisture: Depth) -> Depth
        ensures value { result.0 ≡ percolation_of self.now.numbers moisture.0 }
        ensures laws { EveryAdmissible PercolationLaws }
    {
        let soil = self.numbers;
        let drainable = soil.saturation.0 - soil.field_capacity.0;
        let above = moisture
            .0
            .saturating_sub(soil.field_capacity.0)
            .min(drainable);
        let limit = u64::from(soil.percolation_limit.0);
        let percolated = limit * u64::from(above) / u64::from(drainable);
        Depth(percolated as u32)
    }

    // What the sinking seepage draws from the soil.
    pub fn sinking(&self, moisture: Depth, forcing: &CheckedForcing) -> Depth
        ensures value { result.0 ≡ sinking_of self.now.numbers moisture.0 (sinking_part forcing.now.numbers.seepage) }
        ensures laws { EveryAdmissible SinkingLaws }
    {
        let above = Depth(moisture.0.saturating_sub(self.numbers.field_capacity.0));
        forcing.sinking_seepage().min(above)
    }

    // The slow part of a volume of water; the rest of it is quick.
    pub fn slow_part(&self, volume: Centilitres) -> Centilitres
        ensures value { result.0 ≡ slow_part self.now.numbers volume.0 }
        ensures laws { EveryAdmissible SlowShareLaws }
    {
        let hundredths = u128::from(self.numbers.slow_share) * u128::from(volume.0);
        Centilitres((hundredths / 100) as u64)
    }
}
