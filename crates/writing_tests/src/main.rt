// Records to write, and what writing each answers.
#![tactic(auto)]

mod records;

use records::try_table;
use std::io::Read;

const MOST_TABLE: u64 = 10_000;

fn run(rt: &HostRuntime) -> anyhow::Result<()> {
    let mut table = Vec::new(rt.alloc());
    rt.stdin().take(MOST_TABLE).read_to_end(&mut table)?;
    try_table(rt, table.as_slice())
}

fn main(rt: HostRuntime) -> anyhow::Result<()> {
    run(&rt)
}
