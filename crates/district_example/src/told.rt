// Making one call, and what is printed of it.

use crate::calls::Call;
use crate::nodes::{Example, Site};
use anyhow::anyhow;
use card::concentrations::NUTRIENTS;
use district::district::{District, Reading};
use ground::forcing::Forcing;
use node::answer::{View, Yield};
use places::reservoirs::Reservoirs;
use quantity::mass::Mass;
use quantity::water::{Centilitres, Depth};
use reservoir::fault::Refusal;
use roll::fault::DistrictFault;
use std::io;

pub type Town = District<Reservoirs<Example>>;

pub fn tell(rt: &impl Print, district: &mut Town, call: Call) -> anyhow::Result<()> {
    match call {
        Call::Open(number, site) => tell_opening(rt, district, number, site)?,
        Call::Step(number, rain, evaporation, seepage) => {
            let forcing = Forcing {
                rain: Depth(rain),
                evaporation: Depth(evaporation),
                seepage,
            };
            write_step(rt, number, forcing, district.step(number, forcing))?
        }
        Call::Withdraw(number) => write_withdrawal(rt, number, district.withdraw(number))?,
        Call::Look(number) => write_look(rt, number, district.look(number))?,
        Call::Read => write_reading(rt, &district.read())?,
        Call::Balance => write_balance(rt, &district.read())?,
    }
    Ok(())
}

fn tell_opening(
    rt: &impl Print,
    district: &mut Town,
    number: u32,
    site: Site,
) -> anyhow::Result<()> {
    let reservoirs = site
        .reservoirs()
        .map_err(|_fault| anyhow!("reservoirs are refused"))?;
    let card = site
        .card()
        .check()
        .map_err(|_fault| anyhow!("a card is refused"))?;
    match district.open(number, card, reservoirs) {
        Ok(volume) => println!(rt; "open {number} brought in {}", volume.0)?,
        Err(fault) => write_refusal(rt, "open", number, fault)?,
    }
    Ok(())
}

fn write_step(
    rt: &impl Print,
    number: u32,
    forcing: Forcing,
    answer: Result<Yield, DistrictFault>,
) -> io::Result<()> {
    let answer = match answer {
        Ok(answer) => answer,
        Err(fault) => return write_refusal(rt, "step", number, fault),
    };
    let (rain, evaporation) = (forcing.rain.0, forcing.evaporation.0);
    print!(rt;
        "step {number} {rain} {evaporation} {}: flows",
        forcing.seepage
    )?;
    for flow in answer.flows.listed() {
        print!(rt; " {}", flow.0)?;
    }
    print!(rt;
        " evaporated {} sunk {} loads",
        answer.evaporated.0, answer.sunk.0
    )?;
    for load in answer.loads {
        print!(rt; " {}", load.0)?;
    }
    println!(rt; "")
}

fn write_withdrawal(
    rt: &impl Print,
    number: u32,
    answer: Result<Centilitres, DistrictFault>,
) -> io::Result<()> {
    match answer {
        Ok(volume) => println!(rt; "withdraw {number} ceded {}", volume.0),
        Err(fault) => write_refusal(rt, "withdraw", number, fault),
    }
}

fn write_look(rt: &impl Print, number: u32, answer: Result<View, DistrictFault>) -> io::Result<()> {
    let view = match answer {
        Ok(view) => view,
        Err(fault) => return write_refusal(rt, "look", number, fault),
    };
    print!(rt; "look {number} {} {}", view.moisture.0, view.depression.0)?;
    for content in view.contents.listed() {
        print!(rt; " {}", content.0)?;
    }
    println!(rt; "")
}

fn write_reading(rt: &impl Print, reading: &Reading) -> io::Result<()> {
    let book = reading.book;
    print!(rt;
        "read rain {} rise {} brought in {} evaporated {}",
        book.rain.0, book.rise.0, book.brought_in.0, book.evaporated.0
    )?;
    print!(rt;
        " discharged {} sunk {} ceded {} storage {}",
        book.discharged.0, book.sunk.0, book.ceded.0, reading.storage.0
    )?;
    write_grams(rt, &book.loads)?;
    print!(rt;
        "closes {} + {} + {}",
        book.rain.0, book.rise.0, book.brought_in.0
    )?;
    println!(rt;
        " = {} + {} + {} + {} + {}",
        book.evaporated.0, book.discharged.0, book.sunk.0, book.ceded.0, reading.storage.0
    )
}

fn write_grams(rt: &impl Print, loads: &[Mass; NUTRIENTS]) -> io::Result<()> {
    print!(rt; " grams")?;
    for mass in loads {
        print!(rt; " {}", mass.grams)?;
    }
    println!(rt; "")
}

fn write_balance(rt: &impl Print, reading: &Reading) -> io::Result<()> {
    let book = reading.book;
    print!(rt;
        "balance rain {} + rise {} + brought in {}",
        book.rain.0, book.rise.0, book.brought_in.0
    )?;
    print!(rt;
        " = evaporated {} + discharged {}",
        book.evaporated.0, book.discharged.0
    )?;
    println!(rt;
        " + sunk {} + ceded {} + storage {}",
        book.sunk.0, book.ceded.0, reading.storage.0
    )
}

fn write_refusal(rt: &impl Print, call: &str, number: u32, fault: DistrictFault) -> io::Result<()> {
    let told = Refusal::from(fault);
    println!(rt;
        "refused {call} {number} cause {} layer {} place {}",
        told.cause, told.layer, told.place
    )
}
