// The card of a node: as a caller gives it, and once it is checked.

ghost use Rattle.card.specs.Checking.{Checks};
ghost use Rattle.std.specs.Prelude.{◌≡◌};

use crate::areas::{Areas, CheckedAreas};
use crate::concentrations::{CheckedConcentrations, Concentrations};
use crate::fault::CardFault;
use ground::soil::{CheckedSoil, Soil};

#[derive(Clone, Copy)]
pub struct Card {
    pub areas: Areas,
    pub soil: Soil,
    pub concentrations: Concentrations,
}

// A card whose parts are within their limits. It is got only by checking, cannot be copied, and is spent once.
#[derive(Drop)]
pub struct CheckedCard {
    areas: CheckedAreas,
    soil: CheckedSoil,
    concentrations: CheckedConcentrations,
}

impl Card {
    // The card with its parts checked in the order of its fields, or the fault of the first that is refused.
    pub fn check(self) -> Result<CheckedCard, CardFault>
        ensures { Checks self result }
    {
        let areas = self.areas.check().ok_or(CardFault::Areas)?;
        let soil = self.soil.check().ok_or(CardFault::Soil)?;
        let concentrations = self
            .concentrations
            .check()
            .ok_or(CardFault::Concentrations)?;
        Ok(CheckedCard {
            areas,
            soil,
            concentrations,
        })
    }
}

impl CheckedCard {
    // The checked parts. The card is spent.
    pub fn parts(self) -> (CheckedAreas, CheckedSoil, CheckedConcentrations)
        ensures areas { result.0 ≡ self.areas }
        ensures soil { result.1 ≡ self.soil }
        ensures concentrations { result.2 ≡ self.concentrations }
    {
        let CheckedCard {
            areas,
            soil,
            concentrations,
        } = self;
        (areas, soil, concentrations)
    }
}
