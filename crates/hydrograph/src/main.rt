// The program: reads a storm from standard input, routes it through three reservoirs and prints the hydrograph.
#![tactic(auto)]

mod page;
mod refused;
mod storm;

use crate::page::page_of;
use std::io::Read;

fn main(rt: HostRuntime) -> anyhow::Result<()> {
    run(&rt)
}

fn run(rt: &HostRuntime) -> anyhow::Result<()> {
    let mut storm = Vec::new(rt.alloc());
    rt.stdin().read_to_end(&mut storm)?;
    let page = page_of(rt.alloc(), storm.as_slice())?;
    rt.print(page.as_str())?;
    Ok(())
}
