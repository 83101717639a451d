// The volume of a whole run. A run may be long, so its total is wider than a volume.

ghost use Rattle.std.specs.Prelude.{◌-◌, ◌^◌};

use quantity::account::Account;
use quantity::water::Centilitres;

// Centilitres, as many as 2^64 of the largest volumes make.
#[derive(Clone, Copy, PartialEq, Eq, Debug)]
pub struct Total(pub u128);

// As Centilitres, which differ from it in width alone: std has no trait for both widths.
impl Account for Total {
    type Amount = Centilitres;

    ghost value = { λ total. total.0 };

    ghost worth = { λ volume. volume.0 };

    ghost most = { 2 ^ 128 - 1 };

    fn zero() -> Self {
        Total(0)
    }

    fn plus(self, amount: Centilitres) -> Self {
        Total(self.0.saturating_add(u128::from(amount.0)))
    }
}
