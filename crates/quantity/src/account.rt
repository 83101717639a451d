// An account: a total that starts at zero and grows by what is added to it.
// One account serves water, summed in centilitres, and mass, summed in grams and a rest.

ghost use Rattle.std.specs.Prelude.{◌≡◌, ℕ, ◌+◌, ◌-◌, ◌^◌, min};

use crate::water::Centilitres;

pub trait Account: Sized {
    // What is added: a volume to an account of water, a load to an account of mass.
    type Amount;

    // The number that an account stands for, that an amount stands for, and the largest that an account can.
    ghost value: { Self → ℕ };

    ghost worth: { Self.Amount → ℕ };

    ghost most: { ℕ };

    fn zero() -> Self
        ensures { value result ≡ 0 };

    // Adds exactly; past the largest value the account stays there and never wraps.
    fn plus(self, amount: Self::Amount) -> Self
        ensures { value result ≡ min (value self + worth amount) most };
}

impl Account for Centilitres {
    type Amount = Centilitres;

    ghost value = { λ volume. volume.0 };

    ghost worth = { λ volume. volume.0 };

    ghost most = { 2 ^ 64 - 1 };

    fn zero() -> Self {
        Centilitres(0)
    }

    fn plus(self, amount: Centilitres) -> Self {
        Centilitres(self.0.saturating_add(amount.0))
    }
}
