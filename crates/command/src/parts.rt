// What stands behind the letter of a line, read as the letter's command. `None` where it is anything else.

ghost use Rattle.command.specs.Letters.{letter_c, letter_g, letter_k, letter_o, letter_r, letter_s, letter_w};
ghost use Rattle.command.specs.Parts.{Behind};
ghost use Rattle.decimal.specs.Reading.{SomeExactly};
ghost use Rattle.words.specs.Readings.{ahead};

use crate::command::{Command, Fractions, PLACES};
use card::areas::Areas;
use card::concentrations::{Concentrations, FLOWS, NUTRIENTS};
use ground::forcing::Forcing;
use ground::soil::Soil;
use quantity::load::Concentration;
use quantity::water::{Area, Depth};
use std::array;
use words::words::Words;

// How many numbers the fractions of the places are, and the concentrations of the flows.
const FRACTIONS: usize = 2 * PLACES;

const CONCENTRATIONS: usize = FLOWS * NUTRIENTS;

// `o`: the number of a node, and its areas.
pub(crate) fn begin(mut words: Words<'_>) -> Option<Command>
    ensures { SomeExactly result (Behind letter_o (ahead words.entry)) }
{
    let [number, open, paved, sewer, unpaved] = words.numbers::<_, 5>()?;
    let areas = Areas {
        open: Area(open),
        paved: Area(paved),
        sewer: Area(sewer),
        unpaved: Area(unpaved),
    };
    Some(Command::Begin(number, areas))
}

// `g`: the soil.
pub(crate) fn ground(mut words: Words<'_>) -> Option<Command>
    ensures { SomeExactly result (Behind letter_g (ahead words.entry)) }
{
    let [
        wilting_point,
        field_capacity,
        saturation,
        infiltration_limit,
        percolation_limit,
        depression_limit,
        crop_factor,
        slow_share,
    ] = words.numbers::<_, 8>()?;
    Some(Command::Ground(Soil {
        wilting_point: Depth(wilting_point),
        field_capacity: Depth(field_capacity),
        saturation: Depth(saturation),
        infiltration_limit: Depth(infiltration_limit),
        percolation_limit: Depth(percolation_limit),
        depression_limit: Depth(depression_limit),
        crop_factor,
        slow_share,
    }))
}

// `k`: the fractions of the six places.
pub(crate) fn equip(mut words: Words<'_>) -> Option<Command>
    ensures { SomeExactly result (Behind letter_k (ahead words.entry)) }
{
    let numbers = words.numbers::<u32, FRACTIONS>()?;
    let (pairs, _) = numbers.as_chunks::<2>();
    let fractions = array::from_fn(|place| {
        let [recession, retention] = pairs[place];
        Fractions {
            recession,
            retention,
        }
    });
    Some(Command::Equip(fractions))
}

// `c`: the concentrations of the seven flows.
pub(crate) fn open(mut words: Words<'_>) -> Option<Command>
    ensures { SomeExactly result (Behind letter_c (ahead words.entry)) }
{
    let concentrations = words.numbers::<u32, CONCENTRATIONS>()?.map(Concentration);
    let (flows, _) = concentrations.as_chunks::<NUTRIENTS>();
    let by_flow = flows.try_into().unwrap();
    Some(Command::Open(Concentrations { by_flow }))
}

// `s`: the number of a node, and its forcing.
pub(crate) fn step(mut words: Words<'_>) -> Option<Command>
    ensures { SomeExactly result (Behind letter_s (ahead words.entry)) }
{
    let number = words.next_number()?;
    let rain = Depth(words.next_number()?);
    let evaporation = Depth(words.next_number()?);
    let seepage = words.next_number()?;
    let forcing = Forcing {
        rain,
        evaporation,
        seepage,
    };
    words.is_done().then_some(Command::Step(number, forcing))
}

// `w`: the number of a node.
pub(crate) fn withdraw(mut words: Words<'_>) -> Option<Command>
    ensures { SomeExactly result (Behind letter_w (ahead words.entry)) }
{
    let [number] = words.numbers::<_, 1>()?;
    Some(Command::Withdraw(number))
}

// `r`: nothing.
pub(crate) fn read_book(words: Words<'_>) -> Option<Command>
    ensures { SomeExactly result (Behind letter_r (ahead words.entry)) }
{
    words.is_done().then_some(Command::Read)
}
