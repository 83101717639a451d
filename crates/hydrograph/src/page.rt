// The printed page: a heading, a row or a report for each line, and the closing balances.

use crate::storm::{Reservoirs, next_entry, reservoirs_of, route};
use lines::reader::Reader;
use quantity::water::Centilitres;
use reservoir::interface::Reservoir;
use routing::gauged::Gauged;
use routing::side_by_side::Step;
use std::alloc::{AllocError, Global};

pub fn page_of(heap: Global, storm: &[u8]) -> Result<String, AllocError> {
    let mut page = String::new(heap);
    let mut reader = Reader::new(storm);
    let Some(first) = next_entry(&mut reader) else {
        writeln!(page, "no settings: the first line gives a, b and n")?;
        return Ok(page);
    };
    match reservoirs_of(first.bytes) {
        Ok(mut reservoirs) => {
            write_steps(&mut page, &mut reader, &mut reservoirs)?;
            write_balance(&mut page, "linear", &reservoirs.first)?;
            write_balance(&mut page, "lag", &reservoirs.second)?;
            write_balance(&mut page, "linear then lag", &reservoirs.third)?;
        }
        Err(fault) => writeln!(page, "line {} refused: {fault}", first.number)?,
    }
    Ok(page)
}

fn write_steps(
    page: &mut String,
    reader: &mut Reader<'_>,
    reservoirs: &mut Reservoirs,
) -> Result<(), AllocError> {
    write_heading(page)?;
    // no `for`: entries are read from a reader that is lent
    while let Some(line) = next_entry(reader) {
        match route(reservoirs, line.bytes) {
            Ok((volume, step)) => write_row(page, line.number, volume, &step)?,
            Err(fault) => writeln!(page, "line {} refused: {fault}", line.number)?,
        }
    }
    Ok(())
}

fn write_heading(page: &mut String) -> Result<(), AllocError> {
    writeln!(
        page,
        "{:24}{:>32}{:>32}{:>32}",
        "", "linear", "lag", "linear then lag"
    )?;
    write!(page, "{:>8}{:>16}", "line", "takes")?;
    for _ in 0..3 {
        write!(page, "{:>16}{:>16}", "gives", "holds")?;
    }
    writeln!(page)
}

fn write_row(
    page: &mut String,
    line: usize,
    volume: Centilitres,
    step: &Step,
) -> Result<(), AllocError> {
    write!(page, "{line:>8}{:>16}", volume.0)?;
    for passage in [step.first, step.second, step.third] {
        write!(page, "{:>16}{:>16}", passage.gives.0, passage.holds.0)?;
    }
    writeln!(page)
}

fn write_balance<R: Reservoir>(
    page: &mut String,
    name: &str,
    gauged: &Gauged<R>,
) -> Result<(), AllocError> {
    writeln!(
        page,
        "{name}: taken {} = given {} + held {}",
        gauged.taken.0,
        gauged.given.0,
        gauged.reservoir.content().0
    )
}
