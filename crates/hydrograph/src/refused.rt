// Why a line of a storm is refused, and how that is reported.

ghost use Rattle.hydrograph.specs.declared.refused.VolumeFault.TheVariants.{NoRoom};
ghost use Rattle.std.specs.Prelude.{◌≡◌};

use reservoir::fault::{Fault, Refusal};
use routing::side_by_side::{NoRoom, Position};
use std::fmt;

// Why the line with the settings is refused.
#[derive(Clone, Copy)]
pub enum SettingsFault {
    NotThreeNumbers,
    Linear(Fault),
    Lag(Fault),
}

// Why a line with a volume is refused.
#[derive(Clone, Copy)]
pub enum VolumeFault {
    NotANumber,
    NoRoom(NoRoom),
}

impl From<NoRoom> for VolumeFault {
    ghost from_gives = { λ no_room fault. fault ≡ NoRoom no_room };

    fn from(no_room: NoRoom) -> VolumeFault {
        VolumeFault::NoRoom(no_room)
    }
}

impl fmt::Display for SettingsFault {
    fn fmt<W: fmt::Write>(&self, f: &mut fmt::Formatter<W>) -> fmt::Result {
        match self {
            SettingsFault::NotThreeNumbers => f.write_str("not three numbers a, b and n"),
            SettingsFault::Linear(fault) => {
                write_numbers(f, *fault)?;
                f.write_str("the linear reservoir takes a <= b <= 65535")
            }
            SettingsFault::Lag(fault) => {
                write_numbers(f, *fault)?;
                f.write_str("the lag takes n of 1 to 12")
            }
        }
    }
}

impl fmt::Display for VolumeFault {
    fn fmt<W: fmt::Write>(&self, f: &mut fmt::Formatter<W>) -> fmt::Result {
        match self {
            VolumeFault::NotANumber => f.write_str("not a number"),
            VolumeFault::NoRoom(no_room) => {
                write_numbers(f, no_room.fault)?;
                write!(
                    f,
                    "the {} would hold more than 100000000000000 centilitres",
                    name_of(no_room.position)
                )
            }
        }
    }
}

// The three numbers of a fault, in the words of this program alone: no `Display` of the refusal itself.
fn write_numbers<W: fmt::Write>(f: &mut fmt::Formatter<W>, fault: Fault) -> fmt::Result {
    let told = Refusal::from(fault);
    write!(
        f,
        "cause {}, layer {}, place {}: ",
        told.cause, told.layer, told.place
    )
}

// In the words of this program alone: no `Display` of the position itself.
fn name_of(position: Position) -> &'static str {
    match position {
        Position::First => "linear reservoir",
        Position::Second => "lag",
        Position::Third => "linear reservoir then lag",
    }
}
