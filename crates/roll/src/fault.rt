// Why a call to a district is refused.

ghost use Rattle.roll.specs.Faults.{district_refusal};
ghost use Rattle.roll.specs.declared.fault.DistrictFault.TheVariants.{Step};
ghost use Rattle.std.specs.Prelude.{◌≡◌};

use node::fault::StepFault;
use reservoir::fault::Refusal;

#[derive(Clone, Copy, PartialEq, Eq, Debug)]
pub enum DistrictFault {
    // the number is not one of 1 to 256
    NumberOutside,
    NumberOpen,
    NumberWithdrawn,
    NoUnusedCell,
    // the district would have taken in more than it may
    IncomeTooLarge,
    NumberNew,
    // the node refuses the step
    Step(StepFault),
}

impl From<StepFault> for DistrictFault {
    ghost from_gives = { λ fault r. r ≡ Step fault };

    fn from(fault: StepFault) -> DistrictFault {
        DistrictFault::Step(fault)
    }
}

impl From<DistrictFault> for Refusal {
    ghost from_gives = { λ fault told. told ≡ district_refusal fault };

    fn from(fault: DistrictFault) -> Refusal {
        let cause = match fault {
            DistrictFault::NumberOutside => 6,
            DistrictFault::NumberOpen => 7,
            DistrictFault::NumberWithdrawn => 8,
            DistrictFault::NoUnusedCell => 9,
            DistrictFault::IncomeTooLarge => 10,
            DistrictFault::NumberNew => 11,
            DistrictFault::Step(fault) => return fault.into(),
        };
        Refusal {
            cause,
            layer: 2,
            place: 0,
        }
    }
}
