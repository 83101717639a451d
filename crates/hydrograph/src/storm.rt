// What the lines of a storm say: the settings of the reservoirs, then volumes.

ghost use Rattle.decimal.specs.Reading.{Writes};
ghost use Rattle.hydrograph.specs.Entries.{NextEntry, passed};
ghost use Rattle.hydrograph.specs.Prepared.{LinearAndLag, Prepares};
ghost use Rattle.hydrograph.specs.Refusals.{RefusesNumbers, RefusesSettings, RefusesVolume, Written};
ghost use Rattle.routing.specs.SideBySide.{AllPass, gauges};
ghost use Rattle.std.specs.Prelude.{◌≡◌, MatchResult};

use crate::refused::{SettingsFault, VolumeFault};
use decimal::{natural, naturals};
use lines::reader::{Line, Reader};
use quantity::water::Centilitres;
use reservoir::interface::Reservoir;
use reservoir::lag::Lag;
use reservoir::linear::Linear;
use reservoir::series::Series;
use routing::gauged::Gauged;
use routing::side_by_side::{SideBySide, Step};

pub type Reservoirs = SideBySide<Linear, Lag, Series<Linear, Lag>>;

// Empty lines and remarks are passed over.
fn passed_over(line: &[u8]) -> bool
    ensures { result ≡ passed line.now }
{
    matches!(line, [] | [b'#', ..])
}

// The next line that is not passed over.
pub fn next_entry<'a>(reader: &mut Reader<'a>) -> Option<Line<'a>>
    ensures { NextEntry reader.old result reader.new }
{
    reader.find(|line| !passed_over(line.bytes))
}

// The settings of the three reservoirs.
#[derive(Clone, Copy)]
struct Settings {
    // a and b: the fractions of the linear reservoir
    recession: u64,
    retention: u64,
    // n: the number of steps of the lag
    steps: u64,
}

impl Settings {
    // A linear reservoir and a lag of these settings, both empty.
    fn linear_and_lag(self) -> Result<(Linear, Lag), SettingsFault>
        ensures { MatchResult result (λ made. LinearAndLag self made.0 made.1) (RefusesNumbers self) }
    {
        let linear = Linear::new(self.recession, self.retention).map_err(SettingsFault::Linear)?;
        let lag = Lag::new(self.steps as usize).map_err(SettingsFault::Lag)?;
        Ok((linear, lag))
    }

    // The three reservoirs of these settings, all empty.
    fn side_by_side(self) -> Result<Reservoirs, SettingsFault>
        ensures { MatchResult result (Prepares self) (RefusesNumbers self) }
    {
        let (linear, lag) = self.linear_and_lag()?;
        let (before, after) = self.linear_and_lag()?;
        Ok(SideBySide {
            first: Gauged::new(linear),
            second: Gauged::new(lag),
            third: Gauged::new(Series::join(before, after)),
        })
    }
}

// The three reservoirs by a line with the settings a, b and n.
pub fn reservoirs_of(line: &[u8]) -> Result<Reservoirs, SettingsFault>
    ensures { MatchResult result (λ made. Written line.now (λ settings. Prepares settings made)) (RefusesSettings line.now) }
{
    let [recession, retention, steps] = naturals::<3>(line).ok_or(SettingsFault::NotThreeNumbers)?;
    let settings = Settings {
        recession,
        retention,
        steps,
    };
    settings.side_by_side()
}

// Routes the volume of a line: what is taken, and its passage through each reservoir. Where the line is refused,
// nothing is taken.
pub fn route<F: Reservoir, S: Reservoir, T: Reservoir>(
    reservoirs: &mut SideBySide<F, S, T>,
    line: &[u8],
) -> Result<(Centilitres, Step), VolumeFault>
    ensures { let all = gauges F.settings F.cells S.settings S.cells T.settings T.cells in MatchResult result
        (λ taken. Writes line.now taken.0.0 × AllPass F.make S.make T.make (all reservoirs.old) taken.0.0 taken.1 (all reservoirs.new))
        (λ fault. RefusesVolume line.now (all reservoirs.old) fault × (reservoirs.new ≡ reservoirs.old)) }
{
    let number = natural(line).ok_or(VolumeFault::NotANumber)?;
    let volume = Centilitres(number);
    let step = reservoirs.step(volume)?;
    Ok((volume, step))
}
