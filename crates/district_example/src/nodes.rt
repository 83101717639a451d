// The three nodes: their makes, cards and reservoirs.

use card::areas::Areas;
use card::card::Card;
use card::concentrations::Concentrations;
use ground::soil::Soil;
use places::makes::Makes;
use places::reservoirs::Reservoirs;
use quantity::load::Concentration;
use quantity::water::{Area, Depth};
use reservoir::fault::Fault;
use reservoir::lag::Lag;
use reservoir::linear::Linear;
use reservoir::series::Series;

// Linear reservoirs; the sewer followed by a lag, and two in series in the slow place. As in the program `ram`, but chosen apart:
// the example stands without sheets.
pub struct Example {}

impl Makes for Example {
    type Open = Linear;

    type Paved = Linear;

    type Sewer = Series<Linear, Lag>;

    type Surface = Linear;

    type Quick = Linear;

    type Slow = Series<Linear, Linear>;
}

// A node by its card and reservoirs.
#[derive(Clone, Copy)]
pub enum Site {
    Yard,
    Town,
    Meadow,
}

impl Site {
    pub fn card(self) -> Card {
        match self {
            Site::Yard => yard(),
            Site::Town => town(),
            Site::Meadow => meadow(),
        }
    }

    pub fn reservoirs(self) -> Result<Reservoirs<Example>, Fault> {
        match self {
            Site::Yard => yard_reservoirs(),
            Site::Town => town_reservoirs(),
            Site::Meadow => meadow_reservoirs(),
        }
    }
}

fn loam() -> Soil {
    Soil {
        wilting_point: Depth(10_000),
        field_capacity: Depth(30_000),
        saturation: Depth(40_000),
        infiltration_limit: Depth(2_000),
        percolation_limit: Depth(1_000),
        depression_limit: Depth(500),
        crop_factor: 80,
        slow_share: 50,
    }
}

fn clay() -> Soil {
    Soil {
        wilting_point: Depth(12_000),
        field_capacity: Depth(28_000),
        saturation: Depth(45_000),
        infiltration_limit: Depth(1_500),
        percolation_limit: Depth(700),
        depression_limit: Depth(300),
        crop_factor: 110,
        slow_share: 33,
    }
}

fn sand() -> Soil {
    Soil {
        wilting_point: Depth(2_400),
        field_capacity: Depth(16_080),
        saturation: Depth(29_680),
        infiltration_limit: Depth(2_500),
        percolation_limit: Depth(1_200),
        depression_limit: Depth(800),
        crop_factor: 95,
        slow_share: 70,
    }
}

fn areas(open: u32, paved: u32, sewer: u32, unpaved: u32) -> Areas {
    Areas {
        open: Area(open),
        paved: Area(paved),
        sewer: Area(sewer),
        unpaved: Area(unpaved),
    }
}

// Ammonium, nitrate and phosphor of one flow.
fn flow(ammonium: u32, nitrate: u32, phosphor: u32) -> [Concentration; 3] {
    [
        Concentration(ammonium),
        Concentration(nitrate),
        Concentration(phosphor),
    ]
}

// A small yard with some ditch, some pavement and mostly grass.
fn yard() -> Card {
    let clean = flow(0, 0, 0);
    Card {
        areas: areas(10, 20, 0, 100),
        soil: loam(),
        concentrations: Concentrations {
            by_flow: [clean, clean, clean, flow(690, 0, 0), clean, clean, clean],
        },
    }
}

// A part of a town with every kind of surface, and a concentration of its own in each flow.
fn town() -> Card {
    Card {
        areas: areas(1_000, 2_500, 4_000, 12_500),
        soil: clay(),
        concentrations: Concentrations {
            by_flow: [
                flow(240, 120, 11),
                flow(150, 90, 40),
                flow(600, 210, 130),
                flow(80, 310, 25),
                flow(45, 520, 17),
                flow(30, 260, 9),
                flow(310, 20, 52),
            ],
        },
    }
}

// A meadow on fine sand with a ditch and a path; its sewer place stays dry.
fn meadow() -> Card {
    Card {
        areas: areas(400, 100, 0, 39_500),
        soil: sand(),
        concentrations: Concentrations {
            by_flow: [
                flow(240, 120, 11),
                flow(150, 90, 40),
                flow(0, 0, 0),
                flow(110, 460, 85),
                flow(25, 730, 12),
                flow(15, 340, 6),
                flow(310, 20, 52),
            ],
        },
    }
}

// Reservoirs that keep nothing.
fn yard_reservoirs() -> Result<Reservoirs<Example>, Fault> {
    Ok(Reservoirs::new(
        Linear::new(0, 0)?,
        Linear::new(0, 0)?,
        Series::join(Linear::new(0, 0)?, Lag::new(1)?),
        Linear::new(0, 0)?,
        Linear::new(0, 0)?,
        Series::join(Linear::new(0, 0)?, Linear::new(0, 0)?),
    ))
}

fn town_reservoirs() -> Result<Reservoirs<Example>, Fault> {
    Ok(Reservoirs::new(
        Linear::new(30_000, 47_000)?,
        Linear::new(12_345, 34_567)?,
        Series::join(Linear::new(20_000, 40_001)?, Lag::new(1)?),
        Linear::new(5_000, 30_000)?,
        Linear::new(44_000, 55_555)?,
        Series::join(Linear::new(60_000, 62_000)?, Linear::new(60_000, 62_000)?),
    ))
}

fn meadow_reservoirs() -> Result<Reservoirs<Example>, Fault> {
    Ok(Reservoirs::new(
        Linear::new(40_000, 52_000)?,
        Linear::new(10_000, 33_000)?,
        Series::join(Linear::new(0, 0)?, Lag::new(2)?),
        Linear::new(25_000, 45_000)?,
        Linear::new(50_000, 58_000)?,
        Series::join(Linear::new(62_000, 63_700)?, Linear::new(61_000, 63_200)?),
    ))
}
