// Districts, cards and reservoirs for the tests.

use card::areas::Areas;
use card::card::{Card, CheckedCard};
use card::concentrations::Concentrations;
use card::fault::CardFault;
use district::district::District;
use ground::soil::Soil;
use places::makes::Makes;
use places::reservoirs::Reservoirs;
use quantity::load::Concentration;
use quantity::water::{Area, Depth};
use reservoir::fault::Fault;
use reservoir::linear::Linear;
use std::alloc::{AllocError, Global};

// Linear reservoirs in all places.
pub struct Plain {}

impl Makes for Plain {
    type Open = Linear;

    type Paved = Linear;

    type Sewer = Linear;

    type Surface = Linear;

    type Quick = Linear;

    type Slow = Linear;
}

pub type Six = Reservoirs<Plain>;

// A new district of some cells.
pub(crate) fn district(heap: Global, count: usize) -> Result<District<Six>, AllocError> {
    let cells = (0..count).map(|_| None).collect(heap)?;
    Ok(District::new(cells))
}

// Reservoirs that keep nothing.
pub(crate) fn reservoirs() -> Result<Six, Fault> {
    Ok(Reservoirs::new(
        Linear::new(0, 0)?,
        Linear::new(0, 0)?,
        Linear::new(0, 0)?,
        Linear::new(0, 0)?,
        Linear::new(0, 0)?,
        Linear::new(0, 0)?,
    ))
}

// A card with open water and unpaved area. Its soil is at 300 mm when it is opened.
pub(crate) fn card(open: u32, unpaved: u32) -> Result<CheckedCard, CardFault> {
    let card = Card {
        areas: Areas {
            open: Area(open),
            paved: Area(0),
            sewer: Area(0),
            unpaved: Area(unpaved),
        },
        soil: Soil {
            wilting_point: Depth(10_000),
            field_capacity: Depth(30_000),
            saturation: Depth(40_000),
            infiltration_limit: Depth(2_000),
            percolation_limit: Depth(1_000),
            depression_limit: Depth(500),
            crop_factor: 80,
            slow_share: 50,
        },
        concentrations: Concentrations {
            by_flow: [[Concentration(0); 3]; 7],
        },
    };
    card.check()
}
