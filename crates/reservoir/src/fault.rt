// Why a reservoir refuses, and the three numbers by which every layer of the engine tells a refusal.

ghost use Rattle.reservoir.specs.Faults.{refusal};
ghost use Rattle.std.specs.Prelude.{◌≡◌};

#[derive(Clone, Copy, PartialEq, Eq, Debug)]
pub enum Fault {
    // the settings that a reservoir was to be made with are not valid
    InvalidSettings,
    // the reservoir would hold more than its capacity
    OverCapacity,
}

// A refusal as it is told: its cause, the layer that refuses, and the place, 0 where there is none. Numbers and no enums, by a
// rule of the project: sheets and whoever reads their pages know them by number.
#[derive(Clone, Copy, PartialEq, Eq, Debug)]
pub struct Refusal {
    pub cause: u8,
    pub layer: u8,
    pub place: u8,
}

impl From<Fault> for Refusal {
    ghost from_gives = { λ fault told. told ≡ refusal fault };

    fn from(fault: Fault) -> Refusal {
        match fault {
            Fault::InvalidSettings => Refusal {
                cause: 4,
                layer: 4,
                place: 0,
            },
            Fault::OverCapacity => Refusal {
                cause: 5,
                layer: 4,
                place: 0,
            },
        }
    }
}
