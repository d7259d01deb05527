// Reads a table of texts on standard input and tells what reading each answers, with `WRONG` where
// the table has another answer. A row is `KIND ROOM|ANSWER|LABEL|TEXT`: a list of ROOM entries to read
// into, and the answer as `NUMBER LINE BYTE`, or the days and their totals. Rows that begin with `#`
// are comments. Then texts that nobody wrote, counted by answer.
#![tactic(auto)]

mod answers;
mod coded;
mod noise;

use answers::answer;
use coded::{cut, decoded, number_of};
use kinds::{Cents, Mobile, Pair, Paper, Pieces, Total};
use noise::{cut_texts, damaged_texts, random_texts};
use std::alloc::{AllocError, Global};
use std::io::{Read, Write};

// A kind with two equal column names.
type Twins = Pair<Cents, Cents>;

const MOST_TABLE: u64 = 100_000;

const WORDS: &[u8] = b"day day day cents cents pieces , , , \n \n 1 2 -1 0 x";

const PAPER_LINES: &[u8] =
    b"1,5\n 1,5\n 1,5\n 1,-7\n 2,5\n 2,5\n 2,0\n 3,5\n 3,5\n 4,5\n 5,5\n 1,05\n 2,x\n 2,1000000000001\n 2\n 3,5";

const MOBILE_LINES: &[u8] =
    b"1,5,1\n 1,5,1\n 1,5,0\n 1,-7,1\n 2,5,1\n 2,5,1\n 2,0,0\n 3,5,1\n 3,5,1\n 4,5,1\n 5,5,1\n 1,5,-0\n 2,x,1\n 2,1,-1000000001\n 2,5\n 3,5,1";

fn answer_of(heap: Global, kind: &[u8], room: usize, text: &[u8]) -> Result<String, AllocError> {
    match kind {
        b"paper" => answer::<Paper>(heap, room, text),
        b"mobile" => answer::<Mobile>(heap, room, text),
        b"pieces" => answer::<Pieces>(heap, room, text),
        b"twins" => answer::<Twins>(heap, room, text),
        _ => format!(in heap; "no kind"),
    }
}

fn try_row(rt: &HostRuntime, row: &[u8]) -> anyhow::Result<()> {
    let (list, more) = cut(row, b'|');
    let (due, more) = cut(more, b'|');
    let (label, coded) = cut(more, b'|');
    let (kind, room) = cut(list, b' ');
    let text = decoded(rt.alloc(), coded)?;
    let answer = answer_of(rt.alloc(), kind, number_of(room), text.as_slice())?;
    rt.stdout().write_all(label)?;
    let right = answer.as_bytes() == due;
    let verdict = if right { "" } else { " WRONG" };
    println!(rt; ": {answer}{verdict}")?;
    Ok(())
}

fn try_table(rt: &HostRuntime, table: &[u8]) -> anyhow::Result<()> {
    for row in table.split(|byte| *byte == b'\n') {
        if row.first().is_some_and(|byte| *byte != b'#') {
            try_row(rt, row)?;
        }
    }
    Ok(())
}

// The same sorts of text for a kind, by its names line, sixteen lines and a good text.
fn try_noise<K: Total>(
    rt: &HostRuntime,
    kind: &str,
    names: &[u8],
    lines: &[u8],
    good: &[u8],
) -> anyhow::Result<()> {
    let heap = rt.alloc();
    println!(rt; "{kind} texts that nobody wrote")?;
    random_texts::<K>(heap, b"", b"", 63)?.print(rt, "any bytes")?;
    random_texts::<K>(heap, names, b"", 7)?.print(rt, "names, then any bytes")?;
    random_texts::<K>(heap, b"", WORDS, 31)?.print(rt, "words of texts")?;
    random_texts::<K>(heap, names, lines, 7)?.print(rt, "names, then lines")?;
    damaged_texts::<K>(heap, good)?.print(rt, "each byte damaged")?;
    cut_texts::<K>(heap, good)?.print(rt, "cut off at each byte")
}

fn run(rt: &HostRuntime) -> anyhow::Result<()> {
    let mut table = Vec::new(rt.alloc());
    rt.stdin().take(MOST_TABLE).read_to_end(&mut table)?;
    try_table(rt, table.as_slice())?;
    try_noise::<Paper>(
        rt,
        "paper",
        b"day,cents\n",
        PAPER_LINES,
        b"day,cents\n1,5\n2,-30\n",
    )?;
    try_noise::<Mobile>(
        rt,
        "mobile",
        b"day,cents,pieces\n",
        MOBILE_LINES,
        b"pieces,day,cents\n-7,1,5\n0,2,1000000000000\n",
    )
}

fn main(rt: HostRuntime) -> anyhow::Result<()> {
    run(&rt)
}
