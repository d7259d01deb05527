// Runs the script on standard input.
#![tactic(auto)]

use scripts::run_script;
use std::io::Read;

fn run(rt: &HostRuntime) -> anyhow::Result<()> {
    let mut input = Vec::new(rt.alloc());
    rt.stdin().read_to_end(&mut input)?;
    run_script(rt, &input)
}

fn main(rt: HostRuntime) -> anyhow::Result<()> {
    run(&rt)
}
