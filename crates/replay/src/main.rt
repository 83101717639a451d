// The program: for each run sheet that its arguments name, prints a line with the name and the page that `ram` prints.
#![tactic(auto)]

use equipment::ram::Ram;
use page::page::page;
use std::{env, fs};

fn main(rt: HostRuntime) -> anyhow::Result<()> {
    run(&rt)
}

fn run(rt: &HostRuntime) -> anyhow::Result<()> {
    for name in env::args(rt)?.skip(1) {
        replay(rt, name.as_str())?;
    }
    Ok(())
}

fn replay(rt: &HostRuntime, name: &str) -> anyhow::Result<()> {
    let sheet = fs::read(rt, name)?;
    let cells = Ram::cells(rt.alloc())?;
    let page = page::<Ram>(rt.alloc(), cells, sheet.as_slice())?;
    println!(rt; "# {name}")?;
    rt.write_all(page.as_slice())?;
    Ok(())
}
