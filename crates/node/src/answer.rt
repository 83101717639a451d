// What a step and a look answer.

ghost use Rattle.std.specs.Prelude.{◌≡◌, ◌-◌, ◌^◌, min};
ghost use Rattle.node.specs.Answers.{flows_in};
ghost use Rattle.places.specs.Laws.{total};
ghost use Rattle.reservoir.specs.Cells.{volumes};

use card::concentrations::{FLOWS, NUTRIENTS};
use places::volumes::Volumes;
use quantity::account::Account;
use quantity::load::Load;
use quantity::water::{Centilitres, Depth};

// The seven flows: what the six reservoirs give, and the seepage that rises.
#[derive(Clone, Copy)]
pub struct Flows {
    pub reservoirs: Volumes,
    pub rising: Centilitres,
}

// What an accepted step answers: the flows, what evaporated and transpired, what sank, and the load of each nutrient.
#[derive(Clone, Copy)]
pub struct Yield {
    pub flows: Flows,
    pub evaporated: Centilitres,
    pub sunk: Centilitres,
    pub loads: [Load; NUTRIENTS],
}

// What comes in from outside in a step: the rain, and the seepage that rises.
#[derive(Clone, Copy)]
pub struct Income {
    pub rain: Centilitres,
    pub rise: Centilitres,
}

// A node as it is looked at: the soil moisture, the depression storage and what each reservoir holds.
#[derive(Clone, Copy)]
pub struct View {
    pub moisture: Depth,
    pub depression: Depth,
    pub contents: Volumes,
}

impl Flows {
    // The flows in their order: open, paved, sewer, surface, quick, slow and rising seepage.
    pub fn listed(&self) -> [Centilitres; FLOWS]
        ensures { volumes result ≡ flows_in self.now }
    {
        let [open, paved, sewer, surface, quick, slow] = self.reservoirs.listed();
        [open, paved, sewer, surface, quick, slow, self.rising]
    }

    // All seven together; a sum too large for a volume is the largest volume.
    pub fn total(&self) -> Centilitres
        ensures { result.0 ≡ min (total (flows_in self.now)) (2 ^ 64 - 1) }
    {
        self.reservoirs.total().plus(self.rising)
    }
}
