// The concentrations of nutrients in a node's flows: as a caller gives them, and once they are checked.

ghost use Rattle.card.specs.Limits.{Complete, ConcentrationsWithin};
ghost use Rattle.std.specs.Prelude.{◌≡◌, MatchOption};

use quantity::load::Concentration;

// The flows of a node: open, paved, sewer, surface, quick, slow and rising seepage, in this order.
pub const FLOWS: usize = 7;

// The nutrients: ammonium, nitrate and phosphor, in this order.
pub const NUTRIENTS: usize = 3;

const LARGEST_CONCENTRATION: Concentration = Concentration(20_000);

#[derive(Clone, Copy)]
pub struct Concentrations {
    // first by flow, then by nutrient
    pub by_flow: [[Concentration; NUTRIENTS]; FLOWS],
}

// Concentrations of which none is above the largest.
// A type of its own: a generic one of a lower crate could have no calls of its own here, and lost `Copy` (tried). Checked by
// `check`, the word of the field, and not by `TryFrom`.
#[derive(Clone, Copy)]
pub struct CheckedConcentrations {
    pub(crate) numbers: Concentrations,
    ghost within: { ConcentrationsWithin numbers.by_flow },
    ghost complete: { Complete numbers.by_flow },
}

impl Concentrations {
    // The concentrations with their numbers checked; none if one is above the largest.
    pub fn check(self) -> Option<CheckedConcentrations>
        ensures { MatchOption result (ConcentrationsWithin self.by_flow → ⊥) (λ checked. ConcentrationsWithin self.by_flow × (checked.numbers ≡ self)) }
    {
        let within = self
            .by_flow
            .iter()
            .flatten()
            .all(|concentration| *concentration <= LARGEST_CONCENTRATION);
        if !within {
            return None;
        }
        Some(CheckedConcentrations { numbers: self })
    }
}

impl CheckedConcentrations {
    // The numbers that were checked.
    pub fn numbers(&self) -> Concentrations
        ensures same { result ≡ self.now.numbers }
        ensures within { ConcentrationsWithin result.by_flow }
    {
        self.numbers
    }
}
