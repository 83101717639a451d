// The nutrient loads of a node's flows.

ghost use Rattle.std.specs.Prelude.{◌≡◌, ◌^◌, ◌<◌};
ghost use Rattle.card.specs.Laws.{LoadsBounded, LoadsGrow};
ghost use Rattle.card.specs.Limits.{nutrient_count};
ghost use Rattle.card.specs.Loads.{loads_of, nutrient_load, tenths};
ghost use Rattle.quantity.specs.Amounts.{load_of};
ghost use Rattle.reservoir.specs.Cells.{volumes};

use crate::concentrations::{CheckedConcentrations, FLOWS, NUTRIENTS};
use quantity::load::{Concentration, Load};
use quantity::water::Centilitres;
use std::array;

// The load of one nutrient in one flow, small enough that many fit into a sum.
fn flow_load(volume: Centilitres, concentration: Concentration) -> Load
    ensures value { result.0 ≡ load_of volume.0 concentration.0 }
    ensures fits { result.0 < 2 ^ 96 }
{
    volume * concentration
}

impl CheckedConcentrations {
    // The load of each nutrient: the sum over the flows of volume times concentration.
    pub fn loads(&self, flows: &[Centilitres; FLOWS]) -> [Load; NUTRIENTS]
        ensures value { tenths result ≡ loads_of (volumes flows.now) self.now.numbers.by_flow }
        ensures grow { LoadsGrow }
        ensures bounded { LoadsBounded }
    {
        array::from_fn(|nutrient| self.nutrient_load(flows, nutrient))
    }

    // The load of one nutrient.
    fn nutrient_load(&self, flows: &[Centilitres; FLOWS], nutrient: usize) -> Load
        requires { nutrient < nutrient_count }
        ensures { result.0 ≡ nutrient_load (volumes flows.now) self.now.numbers.by_flow nutrient }
    {
        let tenths = flows
            .iter()
            .zip(&self.numbers.by_flow)
            .map(|(volume, of_flow)| flow_load(*volume, of_flow[nutrient]).0)
            .sum();
        Load(tenths)
    }
}
