// Why a card is refused.

ghost use Rattle.card.specs.Faults.{refusal};
ghost use Rattle.std.specs.Prelude.{◌≡◌};

use reservoir::fault::Refusal;

#[derive(Clone, Copy, PartialEq, Eq, Debug)]
pub enum CardFault {
    // an area, or all areas together, is too large, or all are 0
    Areas,
    // the soil is not admissible
    Soil,
    // a concentration is too large
    Concentrations,
}

impl From<CardFault> for Refusal {
    ghost from_gives = { λ fault told. told ≡ refusal fault };

    fn from(fault: CardFault) -> Refusal {
        let cause = match fault {
            CardFault::Areas => 1,
            CardFault::Soil => 2,
            CardFault::Concentrations => 3,
        };
        Refusal {
            cause,
            layer: 3,
            place: 0,
        }
    }
}
