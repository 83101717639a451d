// Six reservoirs of fixed makes: linear in each place but the sewer, which is a linear reservoir and a lag in series.

use crate::interface::Places;
use crate::makes::Makes;
use crate::reservoirs::Reservoirs;
use crate::volumes::Volumes;
use quantity::water::Centilitres;
use reservoir::fault::{Fault, Refusal};
use reservoir::interface::{CAPACITY, Reservoir};
use reservoir::lag::Lag;
use reservoir::linear::Linear;
use reservoir::series::Series;
use std::test::Fail;

struct District {}

impl Makes for District {
    type Open = Linear;

    type Paved = Linear;

    type Sewer = Series<Linear, Lag>;

    type Surface = Linear;

    type Quick = Linear;

    type Slow = Linear;
}

// Each linear reservoir keeps half of its storage and three quarters of what it takes.
fn linear() -> Result<Linear, Fault> {
    Linear::new(32_768, 49_152)
}

fn node() -> Result<Reservoirs<District>, Fault> {
    let sewer = Series::join(linear()?, Lag::new(2)?);
    Ok(Reservoirs::new(linear()?, linear()?, sewer, linear()?, linear()?, linear()?))
}

// The same volume in each place but the sewer.
fn volumes(sewer: u64, other: u64) -> Volumes {
    Volumes {
        open: Centilitres(other),
        paved: Centilitres(other),
        sewer: Centilitres(sewer),
        surface: Centilitres(other),
        quick: Centilitres(other),
        slow: Centilitres(other),
    }
}

#[test]
fn takes_in_each_place(rt: HostRuntime) -> Result<(), Fail> {
    let mut places = node()?;
    assert_eq!(rt; places.take(&volumes(1000, 1000))?, volumes(0, 250));
    assert_eq!(rt; places.take(&volumes(0, 0))?, volumes(0, 375));
    assert_eq!(rt; places.take(&volumes(0, 0))?, volumes(250, 188));
    assert_eq!(rt; places.contents(), volumes(187 + 375 + 188, 187));
    places.empty();
    assert_eq!(rt; places.contents(), volumes(0, 0));
    Ok(())
}

#[test]
fn refuses_at_the_lowest_place(rt: HostRuntime) -> Result<(), Fail> {
    let mut places = node()?;
    places.take(&volumes(1000, 1000))?;
    let mut large = volumes(1000, 1000);
    large.surface = CAPACITY;
    large.slow = CAPACITY;
    let fault = places.take(&large).err().ok_or("taken")?;
    let expected = Refusal {
        cause: 5,
        layer: 4,
        place: 4,
    };
    assert_eq!(rt; Refusal::from(fault), expected);
    assert_eq!(rt; places.contents(), volumes(1000, 750));
    Ok(())
}
