// Figures that the code is run on: the edges of the settings, and reservoirs and mass of the table.

use quantity::account::Account;
use quantity::load::Concentration;
use quantity::mass::Mass;
use quantity::water::Centilitres;
use reservoir::fault::{Fault, Refusal};
use reservoir::interface::Reservoir;
use reservoir::lag::Lag;
use reservoir::linear::Linear;
use reservoir::series::Series;
use std::test::Fail;

const INVALID: Refusal = Refusal {
    cause: 4,
    layer: 4,
    place: 0,
};

fn refusal_of<T: Drop>(made: Result<T, Fault>) -> Option<Refusal> {
    made.err().map(Refusal::from)
}

#[test]
fn settings_at_their_edges(rt: HostRuntime) {
    assert_eq!(rt; refusal_of(Linear::new(65_535, 65_535)), None);
    assert_eq!(rt; refusal_of(Linear::new(65_535, 65_536)), Some(INVALID));
    assert_eq!(rt; refusal_of(Linear::new(2, 1)), Some(INVALID));
    assert_eq!(rt; refusal_of(Lag::new(0)), Some(INVALID));
    assert_eq!(rt; refusal_of(Lag::new(1)), None);
    assert_eq!(rt; refusal_of(Lag::new(12)), None);
    assert_eq!(rt; refusal_of(Lag::new(13)), Some(INVALID));
}

#[test]
fn a_linear_reservoir_then_a_lag(rt: HostRuntime) -> Result<(), Fail> {
    let mut series = Series::join(Linear::new(32_768, 49_152)?, Lag::new(1)?);
    assert_eq!(rt; series.take(Centilitres(100))?, Centilitres(0));
    assert_eq!(rt; series.take(Centilitres(0))?, Centilitres(25));
    assert_eq!(rt; series.content(), Centilitres(75));
    series.empty();
    assert_eq!(rt; series.content(), Centilitres(0));
    Ok(())
}

#[test]
fn the_capacity_is_reached_and_not_passed(rt: HostRuntime) -> Result<(), Fail> {
    let mut lag = Lag::new(2)?;
    assert_eq!(rt; lag.take(Centilitres(100_000_000_000_000))?, Centilitres(0));
    assert_eq!(rt; lag.take(Centilitres(0))?, Centilitres(0));
    assert_eq!(rt;
        refusal_of(lag.take(Centilitres(1))),
        Some(Refusal {
            cause: 5,
            layer: 4,
            place: 0,
        })
    );
    assert_eq!(rt; lag.content(), Centilitres(100_000_000_000_000));
    Ok(())
}

#[test]
fn grams_and_a_rest(rt: HostRuntime) {
    let load = Centilitres(50_000) * Concentration(690);
    let once = Mass::zero().plus(load);
    assert_eq!(rt; (once.grams, once.rest), (3, 4_500_000));
    let twice = once.plus(load).plus(load);
    assert_eq!(rt; (twice.grams, twice.rest), (10, 3_500_000));
}
