// The program: reads a run sheet from standard input and prints its page. Every sheet has a page.
#![tactic(auto)]

use equipment::ram::Ram;
use page::page::{LARGEST_SHEET, page};
use std::io::Read;

fn main(rt: HostRuntime) -> anyhow::Result<()> {
    run(&rt)
}

fn run(rt: &HostRuntime) -> anyhow::Result<()> {
    let mut sheet = Vec::new(rt.alloc());
    // a byte above the largest sheet tells that there is more
    let mut most = rt.stdin().take(LARGEST_SHEET as u64 + 1);
    most.read_to_end(&mut sheet)?;
    let cells = Ram::cells(rt.alloc())?;
    let page = page::<Ram>(rt.alloc(), cells, sheet.as_slice())?;
    rt.write_all(page.as_slice())?;
    Ok(())
}
