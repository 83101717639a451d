// The limits at their edges, and a worked run of two steps.

use crate::forcing::{CheckedForcing, Forcing};
use crate::ground::Ground;
use crate::soil::Soil;
use crate::step::Soaking;
use quantity::water::Depth;
use std::test::Fail;

// Soils by their numbers, in the order of the fields: each with one number at the edge of its limit.
const AT_THE_EDGE: [[u32; 8]; 8] = [
    [30_000, 30_000, 40_000, 2000, 1000, 500, 80, 50],
    [10_000, 39_999, 40_000, 2000, 1, 500, 80, 50],
    [10_000, 30_000, 200_000, 2000, 1000, 500, 80, 50],
    [10_000, 30_000, 40_000, 100_000, 1000, 500, 80, 50],
    [10_000, 30_000, 40_000, 2000, 10_000, 500, 80, 50],
    [10_000, 30_000, 40_000, 2000, 1000, 100_000, 80, 50],
    [10_000, 30_000, 40_000, 2000, 1000, 500, 200, 50],
    [10_000, 30_000, 40_000, 2000, 1000, 500, 80, 100],
];

// The same, one past the edge.
const PAST_THE_EDGE: [[u32; 8]; 8] = [
    [30_001, 30_000, 40_000, 2000, 1000, 500, 80, 50],
    [10_000, 40_000, 40_000, 2000, 0, 500, 80, 50],
    [10_000, 30_000, 200_001, 2000, 1000, 500, 80, 50],
    [10_000, 30_000, 40_000, 100_001, 1000, 500, 80, 50],
    [10_000, 30_000, 40_000, 2000, 10_001, 500, 80, 50],
    [10_000, 30_000, 40_000, 2000, 1000, 100_001, 80, 50],
    [10_000, 30_000, 40_000, 2000, 1000, 500, 201, 50],
    [10_000, 30_000, 40_000, 2000, 1000, 500, 80, 101],
];

fn soil(numbers: [u32; 8]) -> Soil {
    let [
        wilting,
        field,
        saturation,
        infiltration,
        percolation,
        depression,
        crop_factor,
        slow_share,
    ] = numbers;
    Soil {
        wilting_point: Depth(wilting),
        field_capacity: Depth(field),
        saturation: Depth(saturation),
        infiltration_limit: Depth(infiltration),
        percolation_limit: Depth(percolation),
        depression_limit: Depth(depression),
        crop_factor,
        slow_share,
    }
}

fn forcing(rain: u32, evaporation: u32, seepage: i32) -> Forcing {
    Forcing {
        rain: Depth(rain),
        evaporation: Depth(evaporation),
        seepage,
    }
}

#[test]
fn soil_at_its_limits(rt: HostRuntime) {
    for numbers in AT_THE_EDGE {
        assert!(rt; soil(numbers).check().is_some());
    }
    for numbers in PAST_THE_EDGE {
        assert!(rt; soil(numbers).check().is_none());
    }
    assert!(rt; soil([u32::MAX; 8]).check().is_none());
}

#[test]
fn forcing_at_its_range(rt: HostRuntime) {
    assert!(rt; forcing(100_000, 10_000, 10_000).check().is_some());
    assert!(rt; forcing(100_001, 0, 0).check().is_none());
    assert!(rt; forcing(0, 10_001, 0).check().is_none());
    assert!(rt; forcing(0, 0, 10_001).check().is_none());
    assert!(rt; forcing(0, 0, -10_000).check().is_some());
    assert!(rt; forcing(0, 0, -10_001).check().is_none());
}

fn depths(step: &Soaking) -> [u32; 7] {
    [
        step.infiltration.0,
        step.excess.0,
        step.transpiration.0,
        step.percolation.0,
        step.sinking.0,
        step.ground.moisture().0,
        step.ground.depression().0,
    ]
}

fn checked(rain: u32, evaporation: u32, seepage: i32) -> Result<CheckedForcing, Fail> {
    Ok(
        forcing(rain, evaporation, seepage)
            .check()
            .ok_or("out of range")?,
    )
}

#[test]
fn two_steps(rt: HostRuntime) -> Result<(), Fail> {
    let soil = soil([10_000, 30_000, 40_000, 2000, 1000, 500, 80, 50]);
    let soil = soil.check().ok_or("not admissible")?;
    let first = Ground::new(soil).after(&checked(3000, 400, 0)?);
    assert_eq!(rt; depths(&first), [2000, 500, 320, 168, 0, 31_512, 500]);
    let second = first.ground.after(&checked(0, 0, -2000)?);
    assert_eq!(rt; depths(&second), [500, 0, 0, 201, 1811, 30_000, 0]);
    Ok(())
}
