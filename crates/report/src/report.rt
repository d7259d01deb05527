// The report on a text.
ghost use Rattle.std.specs.Prelude.{◌≡◌, ◌≤◌, true, [], map, length, is_ok};
ghost use Rattle.kinds.specs.Wholes.{paper, mobile};
ghost use Rattle.sheets.specs.Takes.{state_of};
ghost use Rattle.sheets.specs.History.{Calls, Shows};
ghost use Rattle.reading.specs.Parts.{reach};
ghost use Rattle.report.specs.PulseTexts.{sheet_text};
ghost use Rattle.report.specs.Reports.{first_line, names_pieces, report_as, report_of, Reported, most_bytes, ReportsFit, refusal_in, RecordTaken, SplitWritten, PulsesWritten, FaultTold, Told, ShortAlone, OfReport};

use crate::sheet_text::write_pulses;
use kinds::{MOST_DAYS, Mobile, Paper, Total};
use reading::{field, read_trace};
use refusals::{FileFault, Refusal};
use sheets::{Sheet, Stop, WorkEntry};
use shelves::{Row, RowShelf, Shelf};
use writing::write_refusal;

const WORK_ENTRIES: usize = MOST_DAYS + 2;

// What a report works in, with room for every record.
#[derive(Drop)]
struct Lists<K> {
    totals: [K; MOST_DAYS],
    work: [WorkEntry<K>; WORK_ENTRIES],
    rows: [Row<K>; MOST_DAYS],
}

// Room for the report on any text.
pub const MOST_REPORT_BYTES: usize = 65_536;

// The report on a text: mobile totals when a name in its first line is `pieces`, else paper totals.
// Refused only where the output buffer is too short for the bytes due, which one of
// `MOST_REPORT_BYTES` never is.
pub fn report_on(text: &[u8], out: &mut [u8]) -> Result<usize, Refusal>
    ensures answer { Reported (report_of text.now) out.old out.new result }
    ensures room { most_bytes ≤ length out.old → is_ok result ≡ true }
    ensures refusal { ShortAlone result }
{
    report_either(text, out)
}

// No report is longer than that room.
pub fn reports_fit()
    ensures fit { ReportsFit }
    ensures room { MOST_REPORT_BYTES ≡ most_bytes }
{}

// Apart from the public call, which has no proof file: an edit of that call is then refused by a fact.
fn report_either(text: &[u8], out: &mut [u8]) -> Result<usize, Refusal>
    ensures answer { Reported (report_of text.now) out.old out.new result }
    ensures room { most_bytes ≤ length out.old → is_ok result ≡ true }
    ensures refusal { ShortAlone result }
{
    if names_pieces(text) {
        report_mobile(text, out)
    } else {
        report_paper(text, out)
    }
}

// Whether a name in the first line is `pieces`.
fn names_pieces(text: &[u8]) -> bool
    ensures { result ≡ names_pieces text.now }
{
    let names = first_line(text);
    field(names, names, b"pieces").is_some()
}

// A text's first line, whether or not it is ended.
fn first_line(text: &[u8]) -> &[u8]
    ensures { result.now ≡ first_line text.now }
{
    let end = line_end(text);
    &text[..end]
}

// Where it ends.
fn line_end(text: &[u8]) -> usize
    ensures end { result ≡ reach 10 text.now }
    ensures within { result ≤ length text.now }
{
    text.iter()
        .position(|byte| *byte == b'\n')
        .unwrap_or(text.len())
}

// Stays twice, once for each kind: lists of a type parameter are not known to fit in memory.
fn report_mobile(text: &[u8], out: &mut [u8]) -> Result<usize, Refusal>
    ensures { Reported (report_as mobile text.now) out.old out.new result }
{
    let mut lists = Lists {
        totals: [Mobile::zero(); MOST_DAYS],
        work: [WorkEntry::new(); WORK_ENTRIES],
        rows: [blank(); MOST_DAYS],
    };
    report_with(text, &mut lists, out)
}

fn report_paper(text: &[u8], out: &mut [u8]) -> Result<usize, Refusal>
    ensures { Reported (report_as paper text.now) out.old out.new result }
{
    let mut lists = Lists {
        totals: [Paper::zero(); MOST_DAYS],
        work: [WorkEntry::new(); WORK_ENTRIES],
        rows: [blank(); MOST_DAYS],
    };
    report_with(text, &mut lists, out)
}

// A row to fill a list with.
fn blank<K: Total>() -> Row<K> {
    Row {
        first: 0,
        width: 0,
        mark: 0,
        amount: K::zero(),
    }
}

// The report on a text of totals of one kind.
fn report_with<K: Total>(
    text: &[u8],
    lists: &mut Lists<K>,
    out: &mut [u8],
) -> Result<usize, Refusal>
    ensures { Reported (report_as K.kind text.now) out.old out.new result }
{
    let pulses = pulses_of(text, lists, out);
    tell(pulses, out)
}

// Reads a text as totals of one kind, splits the record and writes its pulses.
fn pulses_of<K: Total>(
    text: &[u8],
    lists: &mut Lists<K>,
    out: &mut [u8],
) -> Result<usize, FileFault>
    ensures answer { PulsesWritten K.kind text.now out.old out.new result }
    ensures fault { OfReport result }
{
    let days = read_trace(text, &mut lists.totals)?;
    let mut sheet: Sheet<K, RowShelf<K>> = Sheet::new(RowShelf::over(&mut lists.rows));
    split_and_write(&mut sheet, &lists.totals[..days], &mut lists.work, out)
}

// Splits a record on a new sheet and writes the pulses.
#[tactic(auto, using(std::proofs::lemmas::Grind::common_steps, crate::proofs::SplitFacts::taken_on, crate::proofs::SplitFacts::split_written))]
fn split_and_write<K: Total, S: Shelf<K>>(
    sheet: &mut Sheet<K, S>,
    totals: &[K],
    work: &mut [WorkEntry<K>],
    out: &mut [u8],
) -> Result<usize, FileFault>
    requires { Shows K.kind [] (state_of S.slots S.outside sheet.old) }
    ensures { SplitWritten K.kind (map K.columns totals.now) (length work.old) (length (state_of S.slots S.outside sheet.old).slots) out.old out.new result }
{
    take_record(sheet, totals, work).map_err(FileFault::Taking)?;
    write_sheet(&*sheet, out).map_err(FileFault::Writing)
}

// Takes a record, with the refusal of a call of the sheet in its place.
fn take_record<K: Total, S: Shelf<K>>(
    sheet: &mut Sheet<K, S>,
    totals: &[K],
    work: &mut [WorkEntry<K>],
) -> Result<usize, Refusal>
    ensures { RecordTaken K.kind (map K.columns totals.now) (length work.old) (state_of S.slots S.outside sheet.old) (state_of S.slots S.outside sheet.new) result }
{
    sheet.take(totals, work).map_err(refusal_in)
}

// Writes the pulse text of a sheet that some calls lead to.
fn write_sheet<K: Total, S: Shelf<K>>(sheet: &Sheet<K, S>, out: &mut [u8]) -> Result<usize, Refusal>
    requires { (h : Calls K.kind) × Shows K.kind h (state_of S.slots S.outside sheet.now) }
    ensures { Reported (sheet_text K.kind (state_of S.slots S.outside sheet.now)) out.old out.new result }
{
    write_pulses(sheet, out).map_err(refusal_in)
}

// The refusal of a call of a sheet that some calls lead to: such a call stops for no other reason.
fn refusal_in(stop: Stop) -> Refusal
    ensures { result ≡ refusal_in stop }
{
    match stop {
        Stop::Refused(refusal) => refusal,
        Stop::Unreachable => Refusal::OutputTooShort,
    }
}

// What came of the pulses, with a refusal told as a text, unless it is that of the output buffer.
fn tell(pulses: Result<usize, FileFault>, out: &mut [u8]) -> Result<usize, Refusal>
    ensures { Told pulses out.old out.new result }
{
    // Stays a match: what a closure writes through a borrow is not known behind it.
    match pulses {
        Ok(bytes) => Ok(bytes),
        Err(fault) => tell_fault(fault, out),
    }
}

// The text of a fault, unless it is that of the output buffer.
fn tell_fault(fault: FileFault, out: &mut [u8]) -> Result<usize, Refusal>
    ensures { FaultTold fault out.old out.new result }
{
    match fault.refusal() {
        Refusal::OutputTooShort => Err(Refusal::OutputTooShort),
        refusal => {
            let bytes = write_refusal(refusal.number(), fault.place(), out);
            bytes.ok_or(Refusal::OutputTooShort)
        }
    }
}
