// The program: makes a district of four cells, opens, steps, looks at and withdraws nodes, and prints what each call
// answers, the refusals and the water balance.
#![tactic(auto)]

mod calls;
mod nodes;
mod told;

use crate::calls::CALLS;
use crate::nodes::Example;
use crate::told::tell;
use district::district::District;
use places::reservoirs::Reservoirs;

const CELLS: usize = 4;

fn main(rt: HostRuntime) -> anyhow::Result<()> {
    run(&rt)
}

fn run(rt: &HostRuntime) -> anyhow::Result<()> {
    let cells = (0..CELLS).map(|_| None).collect(rt.alloc())?;
    let mut district = District::<Reservoirs<Example>>::new(cells);
    for call in CALLS {
        tell(rt, &mut district, call)?;
    }
    Ok(())
}
