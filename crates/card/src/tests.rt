// The limits at their edges, the order of the faults, and worked loads.

use crate::areas::Areas;
use crate::card::Card;
use crate::concentrations::{Concentrations, FLOWS, NUTRIENTS};
use ground::soil::Soil;
use quantity::load::{Concentration, Load};
use quantity::water::{Area, Centilitres, Depth};
use reservoir::fault::Refusal;
use std::test::Fail;

// Areas in the order of the fields, and whether they may be used.
const AREAS: [([u32; 4], bool); 13] = [
    ([100_000_000, 0, 0, 0], true),
    ([0, 100_000_000, 0, 0], true),
    ([0, 0, 100_000_000, 0], true),
    ([0, 0, 0, 100_000_000], true),
    ([25_000_000, 25_000_000, 25_000_000, 25_000_000], true),
    ([25_000_000, 25_000_001, 25_000_000, 25_000_000], false),
    ([100_000_001, 0, 0, 0], false),
    ([0, 100_000_001, 0, 0], false),
    ([0, 0, 100_000_001, 0], false),
    ([0, 0, 0, 100_000_001], false),
    ([u32::MAX, u32::MAX, u32::MAX, u32::MAX], false),
    ([0, 0, 1, 0], true),
    ([0, 0, 0, 0], false),
];

fn areas(numbers: [u32; 4]) -> Areas {
    let [open, paved, sewer, unpaved] = numbers;
    Areas {
        open: Area(open),
        paved: Area(paved),
        sewer: Area(sewer),
        unpaved: Area(unpaved),
    }
}

#[test]
fn areas_at_their_limits(rt: HostRuntime) {
    for (numbers, may_be_used) in AREAS {
        assert_eq!(rt; areas(numbers).check().is_some(), may_be_used);
    }
}

#[test]
fn areas_together(rt: HostRuntime) -> Result<(), Fail> {
    let checked = areas([1, 20, 300, 4000]).check().ok_or("refused")?;
    assert_eq!(rt; (checked.total().0, checked.hard().0), (4321, 321));
    Ok(())
}

fn alike(concentration: u32) -> Concentrations {
    Concentrations {
        by_flow: [[Concentration(concentration); NUTRIENTS]; FLOWS],
    }
}

#[test]
fn each_concentration_at_its_limit(rt: HostRuntime) {
    assert!(rt; alike(20_000).check().is_some());
    // each place in turn is set, so it is counted
    for flow in 0..FLOWS {
        for nutrient in 0..NUTRIENTS {
            let mut by_flow = alike(20_000).by_flow;
            by_flow[flow][nutrient] = Concentration(20_001);
            assert!(rt; Concentrations { by_flow }.check().is_none());
        }
    }
}

// An unpaved area, a slow share of the soil and a concentration of every flow; and the cause of the refusal.
const CAUSES: [([u32; 3], Option<u8>); 6] = [
    ([1, 100, 20_000], None),
    ([0, 101, 20_001], Some(1)),
    ([1, 101, 20_001], Some(2)),
    ([1, 100, 20_001], Some(3)),
    ([0, 100, 20_000], Some(1)),
    ([1, 101, 20_000], Some(2)),
];

fn card(numbers: [u32; 3]) -> Card {
    let [unpaved, slow_share, concentration] = numbers;
    Card {
        areas: areas([0, 0, 0, unpaved]),
        soil: Soil {
            wilting_point: Depth(10_000),
            field_capacity: Depth(30_000),
            saturation: Depth(40_000),
            infiltration_limit: Depth(2000),
            percolation_limit: Depth(1000),
            depression_limit: Depth(500),
            crop_factor: 80,
            slow_share,
        },
        concentrations: alike(concentration),
    }
}

#[test]
fn the_first_cause_is_told(rt: HostRuntime) {
    for (numbers, cause) in CAUSES {
        let fault = card(numbers).check().err();
        let told = fault.map(|fault| Refusal::from(fault).cause);
        assert_eq!(rt; told, cause);
    }
}

#[test]
fn loads_of_seven_flows(rt: HostRuntime) -> Result<(), Fail> {
    let mut card = card([1, 100, 0]);
    card.concentrations.by_flow[0] = [Concentration(690), Concentration(0), Concentration(1)];
    card.concentrations.by_flow[6] = [Concentration(0), Concentration(2), Concentration(10)];
    let (_, _, concentrations) = card.check()?.parts();
    let mut flows = [Centilitres(7); FLOWS];
    flows[0] = Centilitres(50_000);
    flows[6] = Centilitres(3);
    assert_eq!(rt;
        concentrations.loads(&flows),
        [Load(34_500_000), Load(6), Load(50_030)]
    );
    Ok(())
}
