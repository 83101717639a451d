// Mass, the sum of loads: too large for one number in tenths of a microgram, so kept as grams and a rest.

ghost use Rattle.std.specs.Prelude.{◌-◌, ◌*◌, ◌^◌, ◌<◌};
ghost use Rattle.quantity.specs.Amounts.{gram, tenths_of};

use crate::account::Account;
use crate::load::Load;

// Tenths of a microgram in a gram.
const GRAM: u128 = 10_000_000;

// Whole grams, and a rest of less than a gram in tenths of a microgram.
#[derive(Clone, Copy, PartialEq, Eq, Debug)]
pub struct Mass {
    pub grams: u64,
    pub rest: u32,
    ghost below_a_gram: { rest < gram },
}

impl Account for Mass {
    type Amount = Load;

    // in tenths of a microgram
    ghost value = { λ mass. tenths_of mass.grams mass.rest };

    ghost worth = { λ load. load.0 };

    ghost most = { 2 ^ 64 * gram - 1 };

    fn zero() -> Self {
        Mass { grams: 0, rest: 0 }
    }

    fn plus(self, amount: Load) -> Self {
        let tenths = amount.0.saturating_add(u128::from(self.rest));
        let Ok(grams) = u64::try_from(u128::from(self.grams) + tenths / GRAM) else {
            return Mass {
                grams: u64::MAX,
                rest: (GRAM - 1) as u32,
            };
        };
        Mass {
            grams,
            rest: (tenths % GRAM) as u32,
        }
    }
}
