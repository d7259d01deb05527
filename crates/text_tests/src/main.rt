// A table of texts, good and damaged, and what reading each answers: the days and the columns, or
// the number, the line and the byte of the refusal. Then what the writer of texts writes.
#![tactic(auto)]

use kinds::{Cents, Mobile, Pair, Paper, Pieces, Total};
use std::io;
use text::{
    FileFault, Lines, Mark, Naming, PulseLine, Value, field, read_figure, read_trace, write_pulse,
    write_pulse_names, write_refusal, write_trace,
};

type Twins = Pair<Cents, Cents>;

fn show_total<K: Total>(rt: &HostRuntime, total: K) -> io::Result<()> {
    let first = total.column(1).unwrap_or(-1);
    match total.column(2) {
        Some(second) => print!(rt; " {first}/{second}"),
        None => print!(rt; " {first}"),
    }
}

fn show_fault(rt: &HostRuntime, fault: FileFault) -> io::Result<()> {
    let number = fault.number();
    let place = fault.place();
    let line = place.line;
    let byte = place.byte;
    println!(rt; "{number} at line {line}, byte {byte}")
}

// Read a text into a list of four totals.
fn read_paper(rt: &HostRuntime, label: &str, text: &[u8]) -> io::Result<()> {
    read_four::<Paper>(rt, label, text)
}

fn read_mobile(rt: &HostRuntime, label: &str, text: &[u8]) -> io::Result<()> {
    read_four::<Mobile>(rt, label, text)
}

fn read_twins(rt: &HostRuntime, label: &str, text: &[u8]) -> io::Result<()> {
    read_four::<Twins>(rt, label, text)
}

fn read_four<K: Total>(rt: &HostRuntime, label: &str, text: &[u8]) -> io::Result<()> {
    let mut totals = vec![in rt.alloc(); K::zero(); 4]?;
    read_into(rt, label, text, totals.as_mut_slice())
}

fn read_into<K: Total>(
    rt: &HostRuntime,
    label: &str,
    text: &[u8],
    totals: &mut [K],
) -> io::Result<()> {
    print!(rt; "{label}: ")?;
    match read_trace::<K>(text, totals) {
        Ok(days) => {
            print!(rt; "{days} days")?;
            for total in totals.iter().take(days) {
                show_total(rt, *total)?;
            }
            println!(rt; "")
        }
        Err(fault) => show_fault(rt, fault),
    }
}

fn good_texts(rt: &HostRuntime) -> io::Result<()> {
    read_paper(rt, "no days", b"day,cents\n")?;
    read_paper(rt, "two days", b"day,cents\n1,2\n2,-1\n")?;
    read_paper(rt, "names turned", b"cents,day\n7,1\n0,2\n")?;
    read_mobile(rt, "mobile", b"day,cents,pieces\n1,4,1\n2,4,3\n")?;
    read_mobile(rt, "mobile turned", b"pieces,day,cents\n-9,1,5\n")?;
    read_paper(rt, "largest entry", b"day,cents\n1,1000000000000\n")
}

fn bad_names(rt: &HostRuntime) -> io::Result<()> {
    read_twins(rt, "twin names", b"day,cents,cents\n")?;
    read_paper(rt, "empty text", b"")?;
    read_paper(rt, "empty names line", b"\n1,2\n")?;
    read_paper(rt, "unknown name", b"day,coins\n")?;
    read_paper(rt, "repeated name", b"day,cents,day\n")?;
    read_paper(rt, "leftmost name first", b"day,day,coins")?;
    read_paper(rt, "missing name", b"day\n1\n")?;
    read_mobile(rt, "missing pieces", b"day,cents\n1,2\n")?;
    read_paper(rt, "unended names line", b"day,cents")?;
    read_paper(rt, "name of another kind", b"day,cents,pieces\n")
}

fn bad_lines(rt: &HostRuntime) -> io::Result<()> {
    read_paper(rt, "too few fields", b"day,cents\n1,2\n2\n")?;
    read_paper(rt, "too many fields", b"day,cents\n1,2,3\n")?;
    read_paper(rt, "empty line", b"day,cents\n\n")?;
    read_paper(rt, "unended line", b"day,cents\n1,2")?;
    read_paper(rt, "unended second line", b"day,cents\n1,2\n2,3")?;
    read_paper(rt, "no figure", b"day,cents\n1,x\n")?;
    read_paper(rt, "leftmost figure first", b"day,cents\n01,-0\n")?;
    read_paper(rt, "minus zero", b"day,cents\n1,-0\n")?;
    read_paper(rt, "19 digits", b"day,cents\n1,1000000000000000000\n")?;
    read_paper(rt, "18 digits", b"day,cents\n1,100000000000000000\n")?;
    read_paper(rt, "day out of turn", b"day,cents\n1,5\n3,5\n")?;
    read_paper(rt, "day in the second field", b"cents,day\n5,2\n")?;
    read_paper(rt, "day below zero", b"day,cents\n-1,5\n")?;
    read_paper(rt, "count before figure", b"day,cents\nx\n")?;
    read_paper(rt, "figure before day", b"day,cents\n2,x\n")?;
    read_paper(
        rt,
        "may not be entered",
        b"day,cents\n1,5\n2,1000000000001\n",
    )?;
    read_mobile(
        rt,
        "pieces may not be entered",
        b"day,cents,pieces\n1,5,-1000000001\n",
    )?;
    read_paper(
        rt,
        "list too short",
        b"day,cents\n1,1\n2,1\n3,1\n4,1\n5,1\n",
    )?;
    read_paper(rt, "carriage return", b"day,cents\r\n1,2\r\n")
}

fn long_text(rt: &HostRuntime) -> io::Result<()> {
    let text = [b'x'; 40_001];
    read_paper(rt, "over 40,000 bytes", &text)?;
    read_paper(rt, "40,000 bytes", &text[0..40_000])
}

fn show_field(
    rt: &HostRuntime,
    label: &str,
    names: &[u8],
    values: &[u8],
    name: &[u8],
) -> io::Result<()> {
    match field(names, values, name) {
        Some(bytes) => {
            let length = bytes.len();
            let figure = read_figure(bytes).unwrap_or(-1);
            println!(rt; "{label}: {length} bytes, figure {figure}")
        }
        None => println!(rt; "{label}: nothing"),
    }
}

fn fields(rt: &HostRuntime) -> io::Result<()> {
    show_field(rt, "second field", b"day,cents", b"1,250", b"cents")?;
    show_field(rt, "first place", b"a,b,a", b"1,2,3", b"a")?;
    show_field(rt, "empty field", b"a,b", b"1,", b"b")?;
    show_field(rt, "no such name", b"a,b", b"1,2", b"c")?;
    show_field(rt, "no such value", b"a,b", b"1", b"b")?;
    show_field(rt, "name with a comma", b"a,b", b"1,2", b"a,b")?;
    show_field(rt, "line feed in the names", b"a,b\n", b"1,2", b"a")?;
    show_field(rt, "line feed in the values", b"a,b", b"1,2\n", b"a")
}

fn show_bytes(rt: &HostRuntime, bytes: &[u8]) -> io::Result<()> {
    for b in bytes {
        let c = *b as char;
        print!(rt; "{c}")?;
    }
    Ok(())
}

fn pulses(rt: &HostRuntime) -> io::Result<()> {
    let mut out = [b'.'; 80];
    let Ok(lines) = write_pulse_names::<Mobile>(Naming::begin(), &mut out) else {
        return println!(rt; "too short");
    };
    let amount = mobile(-12, 3);
    let pulse = PulseLine {
        number: 1,
        width: 2,
        first: 17,
        amount,
        state: Mark::In,
    };
    let Ok(lines) = write_pulse(lines, pulse, &mut out) else {
        return println!(rt; "too short");
    };
    let pulse = PulseLine {
        number: 2,
        width: 1000,
        first: 1,
        amount,
        state: Mark::Out,
    };
    let Ok(lines) = write_pulse(lines, pulse, &mut out) else {
        return println!(rt; "too short");
    };
    let mut short = [b'.'; 4];
    match lines.line(&[Value::Count(123)], &mut short) {
        Ok(_) => println!(rt; "fits")?,
        Err(short) => {
            let number = short.refusal().number();
            let length = end(short.state, &mut out);
            println!(rt; "{number} behind {length} bytes")?;
        }
    }
    show_bytes(rt, &out)?;
    println!(rt; "")
}

fn refusals(rt: &HostRuntime) -> io::Result<()> {
    let mut out = [b'.'; 30];
    let place = refusals::Place { line: 3, byte: 17 };
    let bytes = write_refusal(13, place, &mut out).unwrap_or(0);
    println!(rt; "{bytes} bytes")?;
    show_bytes(rt, &out)?;
    println!(rt; "")?;
    let none = write_refusal(13, place, &mut out[0..25]).unwrap_or(0);
    println!(rt; "{none} bytes")
}

fn show_written(
    rt: &HostRuntime,
    label: &str,
    res: Result<usize, refusals::Refusal>,
    out: &[u8],
) -> io::Result<()> {
    match res {
        Ok(bytes) => println!(rt; "{label}: {bytes} bytes")?,
        Err(refusal) => {
            let number = refusal.number();
            let day = refusal.day();
            println!(rt; "{label}: {number}, day {day}")?;
        }
    }
    show_bytes(rt, out)?;
    println!(rt; "")
}

// Writes two mobile totals into a buffer that is just long enough, and into one that is too short.
fn records(rt: &HostRuntime) -> io::Result<()> {
    let totals = [mobile(1_000_000_000_000, -1), mobile(0, 1_000_000_000)];
    let mut out = [b'.'; 55];
    let written = write_trace(&totals, &mut out);
    show_written(rt, "two days", written, &out)?;
    let mut short = [b'.'; 50];
    let refused = write_trace(&totals, &mut short);
    show_written(rt, "one byte short", refused, &short)?;
    let large = [mobile(1, 1), mobile(1, 1_000_000_001)];
    let refused = write_trace(&large, &mut short);
    show_written(rt, "may not be entered", refused, &short)?;
    let twins = [Pair {
        first: Cents::new(1),
        second: Cents::new(2),
    }];
    let refused = write_trace(&twins, &mut short);
    show_written(rt, "twin names", refused, &short)
}

fn mobile(cents: i64, pieces: i64) -> Mobile {
    Pair {
        first: Cents::new(cents),
        second: Pieces::new(pieces),
    }
}

// Ends a text, and tells its length.
fn end(text: Lines, _out: &mut [u8]) -> usize {
    let ended = text.end();
    ended.length()
}

fn main(rt: HostRuntime) -> io::Result<()> {
    good_texts(&rt)?;
    bad_names(&rt)?;
    bad_lines(&rt)?;
    long_text(&rt)?;
    fields(&rt)?;
    pulses(&rt)?;
    refusals(&rt)?;
    records(&rt)
}
