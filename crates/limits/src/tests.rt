// Each test opens a district of its own.

use crate::scene::*;
use district::district::District;
use ground::forcing::Forcing;
use quantity::water::{Centilitres, Depth};
use reservoir::fault::Refusal;
use roll::fault::DistrictFault;
use std::test::Fail;

// The cause of a refusal; none of an accepted call.
fn cause<T: Drop>(answer: Result<T, DistrictFault>) -> Option<u8> {
    answer.err().map(|fault| Refusal::from(fault).cause)
}

fn rain(depth: u32) -> Forcing {
    Forcing {
        rain: Depth(depth),
        evaporation: Depth(0),
        seepage: 0,
    }
}

// Opens a number on 100 square metres of soil, and answers the cause of a refusal.
fn opened(district: &mut District<Six>, number: u32) -> Result<Option<u8>, Fail> {
    Ok(cause(district.open(number, card(0, 100)?, reservoirs()?)))
}

#[test]
fn numbers_are_1_to_256_and_open_once(rt: HostRuntime) -> Result<(), Fail> {
    let mut district = district(rt.alloc(), 64)?;
    assert_eq!(rt; opened(&mut district, 0)?, Some(6));
    assert_eq!(rt; opened(&mut district, 1)?, None);
    assert_eq!(rt; opened(&mut district, 256)?, None);
    assert_eq!(rt; opened(&mut district, 257)?, Some(6));
    assert_eq!(rt; opened(&mut district, 1)?, Some(7));
    assert_eq!(rt; cause(district.step(2, rain(0))), Some(11));
    assert_eq!(rt; cause(district.withdraw(2)), Some(11));
    assert_eq!(rt; district.withdraw(1)?, Centilitres(3_000_000));
    assert_eq!(rt; opened(&mut district, 1)?, Some(8));
    assert_eq!(rt; cause(district.step(1, rain(0))), Some(8));
    assert_eq!(rt; cause(district.look(1)), Some(8));
    Ok(())
}

#[test]
fn at_most_64_cells_are_used_and_used_again(rt: HostRuntime) -> Result<(), Fail> {
    let mut district = district(rt.alloc(), 70)?;
    for number in 1..65 {
        assert_eq!(rt; opened(&mut district, number)?, None);
    }
    assert_eq!(rt; opened(&mut district, 65)?, Some(9));
    assert_eq!(rt; cause(district.withdraw(33)), None);
    assert_eq!(rt; opened(&mut district, 65)?, None);
    assert_eq!(rt; opened(&mut district, 66)?, Some(9));
    Ok(())
}

#[test]
fn fewer_cells_are_fewer_nodes(rt: HostRuntime) -> Result<(), Fail> {
    let mut none = district(rt.alloc(), 0)?;
    assert_eq!(rt; opened(&mut none, 1)?, Some(9));
    let mut one = district(rt.alloc(), 1)?;
    assert_eq!(rt; opened(&mut one, 200)?, None);
    assert_eq!(rt; opened(&mut one, 201)?, Some(9));
    Ok(())
}

#[test]
fn a_refused_step_leaves_a_reading_unchanged(rt: HostRuntime) -> Result<(), Fail> {
    let mut district = district(rt.alloc(), 2)?;
    assert_eq!(rt; opened(&mut district, 7)?, None);
    assert_eq!(rt; cause(district.step(7, rain(3_000))), None);
    let before = district.read();
    assert_eq!(rt; cause(district.step(7, rain(100_001))), Some(12));
    let after = district.read();
    assert_eq!(rt; before.storage, after.storage);
    assert_eq!(rt; before.book.rain, after.book.rain);
    assert_eq!(rt; before.book.discharged, after.book.discharged);
    Ok(())
}

// A hundred thousand steps of the largest rain on the largest area bring in 10^18 exactly.
#[test]
fn income_goes_up_to_the_limit(rt: HostRuntime) -> Result<(), Fail> {
    let mut district = district(rt.alloc(), 2)?;
    assert_eq!(rt;
        cause(district.open(1, card(100_000_000, 0)?, reservoirs()?)),
        None
    );
    for _ in 0..99_999 {
        assert_eq!(rt; cause(district.step(1, rain(100_000))), None);
    }
    assert_eq!(rt; cause(district.step(1, rain(100_001))), Some(12));
    assert_eq!(rt; cause(district.step(1, rain(99_999))), None);
    // 10^8 centilitres of room are left: an opening that brings in 3,000,000 fits, one of 300,000,000 does not
    assert_eq!(rt; opened(&mut district, 2)?, None);
    assert_eq!(rt; cause(district.withdraw(2)), None);
    assert_eq!(rt;
        cause(district.open(3, card(0, 10_000)?, reservoirs()?)),
        Some(10)
    );
    assert_eq!(rt; cause(district.step(1, rain(1))), Some(10));
    assert_eq!(rt; cause(district.step(1, rain(0))), None);
    Ok(())
}
