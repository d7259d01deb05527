// Reads a trace text on standard input and prints its pulses, or why it was refused.
#![tactic(auto)]

use anyhow::{Context, anyhow};
use report::{MOST_REPORT_BYTES, report_on};
use std::io::{Read, Write};

// One byte more than a text may have, so that a longer one is known as such.
const MOST_INPUT: u64 = 40_001;

fn run(rt: &HostRuntime) -> anyhow::Result<()> {
    let heap = rt.alloc();
    let mut text = Vec::new(heap);
    rt.stdin().take(MOST_INPUT).read_to_end(&mut text)?;
    let mut out = vec![in heap; 0u8; MOST_REPORT_BYTES]?;
    let bytes = report_on(&text, &mut out).map_err(|_| anyhow!(
        "the report is longer than its buffer"
    ))?;
    let report = out
        .get(..bytes)
        .context("the report ends behind its buffer")?;
    rt.stdout().write_all(report)?;
    Ok(())
}

fn main(rt: HostRuntime) -> anyhow::Result<()> {
    run(&rt)
}
