// Why a line of a sheet is refused. Faults of a card, of reservoirs and of the district come up by `?`.

ghost use Rattle.session.specs.Faults.{sheet_refusal};
ghost use Rattle.session.specs.declared.fault.SheetFault.TheVariants.{NoForm, OfCard, OfReservoir, OfDistrict};
ghost use Rattle.std.specs.Prelude.{◌≡◌};

use card::fault::CardFault;
use command::command::Malformed;
use places::fault::PlacedFault;
use reservoir::fault::Refusal;
use roll::fault::DistrictFault;

#[derive(Clone, Copy, PartialEq, Eq, Debug)]
pub enum SheetFault {
    // the line is too long, or has none of the forms
    NoForm,
    OutOfTurn,
    OfCard(CardFault),
    OfReservoir(PlacedFault),
    OfDistrict(DistrictFault),
}

impl From<Malformed> for SheetFault {
    ghost from_gives = { λ _ r. r ≡ NoForm };

    fn from(_fault: Malformed) -> SheetFault {
        SheetFault::NoForm
    }
}

impl From<CardFault> for SheetFault {
    ghost from_gives = { λ fault r. r ≡ OfCard fault };

    fn from(fault: CardFault) -> SheetFault {
        SheetFault::OfCard(fault)
    }
}

impl From<PlacedFault> for SheetFault {
    ghost from_gives = { λ fault r. r ≡ OfReservoir fault };

    fn from(fault: PlacedFault) -> SheetFault {
        SheetFault::OfReservoir(fault)
    }
}

impl From<DistrictFault> for SheetFault {
    ghost from_gives = { λ fault r. r ≡ OfDistrict fault };

    fn from(fault: DistrictFault) -> SheetFault {
        SheetFault::OfDistrict(fault)
    }
}

impl From<SheetFault> for Refusal {
    ghost from_gives = { λ fault told. told ≡ sheet_refusal fault };

    fn from(fault: SheetFault) -> Refusal {
        let cause = match fault {
            SheetFault::NoForm => 13,
            SheetFault::OutOfTurn => 14,
            SheetFault::OfCard(fault) => return fault.into(),
            SheetFault::OfReservoir(fault) => return fault.into(),
            SheetFault::OfDistrict(fault) => return fault.into(),
        };
        Refusal {
            cause,
            layer: 1,
            place: 0,
        }
    }
}
