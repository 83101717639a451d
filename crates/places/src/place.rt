// The places of a drainage node that have a reservoir, in their order.

ghost use Rattle.places.specs.Numbers.{number};
ghost use Rattle.std.specs.Prelude.{◌≡◌};

#[derive(Clone, Copy, PartialEq, Eq, Debug)]
pub enum Place {
    Open,
    Paved,
    Sewer,
    Surface,
    Quick,
    Slow,
}

// Its number, from 1 to 6.
impl From<Place> for u8 {
    ghost from_gives = { λ place n. n ≡ number place };

    fn from(place: Place) -> u8 {
        place as u8 + 1
    }
}
