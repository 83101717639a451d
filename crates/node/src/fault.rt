// Why a step is refused.

ghost use Rattle.node.specs.Faults.{step_refusal};
ghost use Rattle.node.specs.declared.fault.StepFault.TheVariants.{Reservoir};
ghost use Rattle.std.specs.Prelude.{◌≡◌};

use places::fault::PlacedFault;
use reservoir::fault::Refusal;

#[derive(Clone, Copy, PartialEq, Eq, Debug)]
pub enum StepFault {
    // the forcing is out of range
    OutOfRange,
    // a reservoir has no room
    Reservoir(PlacedFault),
}

impl From<PlacedFault> for StepFault {
    ghost from_gives = { λ fault r. r ≡ Reservoir fault };

    fn from(placed: PlacedFault) -> StepFault {
        StepFault::Reservoir(placed)
    }
}

impl From<StepFault> for Refusal {
    ghost from_gives = { λ fault told. told ≡ step_refusal fault };

    fn from(fault: StepFault) -> Refusal {
        match fault {
            StepFault::OutOfRange => Refusal {
                cause: 12,
                layer: 3,
                place: 0,
            },
            StepFault::Reservoir(fault) => fault.into(),
        }
    }
}
