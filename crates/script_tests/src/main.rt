// Runs the scripts on standard input, each under a line that begins with `=`, and prints each answer;
// then scripts that are too long for a table, or that end in an unended line.
#![tactic(auto)]

ghost use Rattle.std.specs.Prelude.{◌<◌, ◌≤◌, length};

use scripts::run_script;
use std::io::{Read, Write};
use std::iter;

const MOST_SCRIPTS: u64 = 100_000;

fn run_named(rt: &HostRuntime, name: &str, script: &[u8]) -> anyhow::Result<()> {
    println!(rt; "== {name}")?;
    run_script(rt, script)
}

// The first line with its line feed, and what follows it.
fn cut_line(bytes: &[u8]) -> (&[u8], &[u8])
    requires { 0 < length bytes.now }
    ensures { length result.1.now < length bytes.now }
{
    match bytes.iter().position(|byte| *byte == b'\n') {
        Some(end) => bytes.split_at(end + 1),
        None => (bytes, &[]),
    }
}

// What stands before the next line that begins with `=`, and that line with all that follows.
fn cut_script(bytes: &[u8]) -> (&[u8], &[u8])
    ensures { length result.1.now ≤ length bytes.now }
{
    if bytes.starts_with(b"=") {
        return (&[], bytes);
    }
    match bytes.windows(2).position(|pair| pair == b"\n=".as_slice()) {
        Some(end) => bytes.split_at(end + 1),
        None => (bytes, &[]),
    }
}

fn run_table(rt: &HostRuntime, table: &[u8]) -> anyhow::Result<()> {
    let mut left = table;
    while !left.is_empty() {
        let (name, more) = cut_line(left);
        let (script, rest) = cut_script(more);
        rt.stdout().write_all(name)?;
        run_script(rt, script)?;
        left = rest;
    }
    Ok(())
}

fn unended(rt: &HostRuntime) -> anyhow::Result<()> {
    run_named(rt, "no script", b"")?;
    run_named(rt, "an unended first line", b"paper rows 1")?;
    run_named(rt, "an unended call", b"paper rows 1\ndays")?;
    run_named(rt, "an unended take", b"paper rows 1\ntake 3")?;
    run_named(
        rt,
        "an unended text",
        b"paper rows 1\ntake 3\nday,cents\n1,7",
    )
}

// A text of one line of so many letters.
fn long_line(rt: &HostRuntime, letters: usize) -> anyhow::Result<()> {
    let mut script = Vec::new(rt.alloc());
    script.extend_from_slice(b"paper rows 1\ntake 2\n")?;
    script.extend(iter::repeat_n(b'x', letters))?;
    println!(rt; "== {letters} letters")?;
    run_script(rt, &script)
}

fn run(rt: &HostRuntime) -> anyhow::Result<()> {
    let mut table = Vec::new(rt.alloc());
    rt.stdin().take(MOST_SCRIPTS).read_to_end(&mut table)?;
    run_table(rt, &table)?;
    unended(rt)?;
    long_line(rt, 39_999)?;
    long_line(rt, 40_000)
}

fn main(rt: HostRuntime) -> anyhow::Result<()> {
    run(&rt)
}
