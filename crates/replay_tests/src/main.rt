// Runs a table of scripts, on both kinds and both shelves, and prints each answer.
#![tactic(auto)]

use scripts::run_script;
use std::io::Write;

fn run_named(rt: &HostRuntime, name: &str, script: &[u8]) -> anyhow::Result<()> {
    println!(rt; "== {name}")?;
    run_script(rt, script)
}

fn marks_and_refusals(rt: &HostRuntime) -> anyhow::Result<()> {
    run_named(
        rt,
        "worked standing trace",
        b"paper rows 5\ntake 6\nday,cents\n1,5\n2,-5\n3,5\n4,-5\n\nlist\nswing\nremove 3 3\ntrace 4\nswing\npulse 3\nstanding 2\nrestore 1 1000\ntrace 4\nmemory\n",
    )?;
    run_named(
        rt,
        "widths, numbers and days out of range",
        b"paper rows 3\nremove 0 4\nremove 2 1\nremove 1 1001\nremove 1 1000\nremove-one 0\nremove-one 1\npulse 1\nstanding 0\nstanding 1\ntrace 0\nswing\ndays\npulses\nlist\nmemory\n",
    )?;
    run_named(
        rt,
        "work list and shelf",
        b"paper rows 2\ntake 4\nday,cents\n1,1\n2,3\n3,2\n\ntake 5\nday,cents\n1,1\n2,3\n3,2\n\nmemory\n",
    )?;
    run_named(
        rt,
        "one row more passes",
        b"paper rows 3\ntake 4\nday,cents\n1,1\n2,3\n3,2\n\ntake 5\nday,cents\n1,1\n2,3\n3,2\n\nlist\nmemory\n",
    )?;
    run_named(
        rt,
        "bumps before pits",
        b"paper bytes 51\ntake 5\nday,cents\n1,2\n2,-1\n3,2\n\nlist\nremove-one 3\nremove-one 3\ntrace 3\nmemory\n",
    )?;
    run_named(
        rt,
        "one day",
        b"paper bytes 16\ntake 3\nday,cents\n1,7\n\nlist\nremove 1 1\nrestore-one 1\nrestore-one 1\nmemory\n",
    )
}

fn kinds_and_shelves(rt: &HostRuntime) -> anyhow::Result<()> {
    run_named(
        rt,
        "mobile totals over rows",
        b"mobile rows 4\ntake 5\nday,cents,pieces\n1,4,1\n2,4,3\n3,4,2\n\nlist\nswing\nremove 1 2\ntrace 3\nstanding 2\npulse 2\nmemory\n",
    )?;
    run_named(
        rt,
        "mobile totals over bytes",
        b"mobile bytes 75\ntake 5\npieces,day,cents\n1,1,4\n3,2,4\n2,3,4\n\nlist\nremove 1 2\nswing\nmemory\n",
    )?;
    run_named(
        rt,
        "a second take",
        b"paper rows 4\ntake 6\nday,cents\n1,3\n2,1\n3,4\n\nremove 1 3\ntrace 3\ntake 3\nday,cents\n1,9\n\nlist\ndays\ntrace 3\nmemory\n",
    )?;
    run_named(
        rt,
        "refused texts",
        b"paper rows 3\ntake 9\n\ntake 9\nday,cents\n1,01\n\ntake 9\nday,cents\n2,1\n\ntake 9\nday,cents\n1\n\ntake 9\nday,cents\n1,1000000000001\n\ntake 9\nday,pieces\n1,1\n\ntrace 3\n",
    )?;
    run_named(
        rt,
        "a short list",
        b"paper rows 3\ntake 5\nday,cents\n1,1\n2,3\n3,2\n\ntrace 2\ntrace 3\ntrace 9\n",
    )?;
    run_named(
        rt,
        "an empty record",
        b"paper rows 0\ntake 1\nday,cents\n\ntake 2\nday,cents\n\ntrace 0\nswing\nmemory\n",
    )
}

fn odd_lines(rt: &HostRuntime) -> anyhow::Result<()> {
    run_named(
        rt,
        "not calls",
        b"paper rows 1\n\ndays \n days\nremove 1\nremove 01 2\npulse -1\ntake 1000001\nday,cents\ntrace 1000001\npulse 18446744073709551616\npulse 18446744073709551615\nRemove 1 1\ndays",
    )?;
    run_named(rt, "not a sheet", b"cents rows 1\ndays\n")?;
    run_named(rt, "not a sheet either", b"paper rows 1000001\n")?;
    run_named(rt, "no script", b"")
}

// The text of a record of so many days, each of one cent.
fn long_take(rt: &HostRuntime, days: usize) -> anyhow::Result<()> {
    let mut script = Vec::new(rt.alloc());
    script.extend_from_slice(b"paper rows 1000\ntake 1002\nday,cents\n")?;
    for day in 1..=days {
        writeln!(script, "{day},1")?;
    }
    script.extend_from_slice(b"\ndays\nlist\n")?;
    println!(rt; "== {days} days")?;
    run_script(rt, &script)
}

fn run(rt: &HostRuntime) -> anyhow::Result<()> {
    marks_and_refusals(rt)?;
    kinds_and_shelves(rt)?;
    odd_lines(rt)?;
    long_take(rt, 1000)?;
    long_take(rt, 1001)
}

fn main(rt: HostRuntime) -> anyhow::Result<()> {
    run(&rt)
}
