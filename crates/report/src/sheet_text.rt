// The pulse text of a sheet.
ghost use Rattle.std.specs.Prelude.{◌≡◌, ◌+◌, ◌≤◌, length};
ghost use Rattle.sheets.specs.Takes.{state_of};
ghost use Rattle.reading.specs.Traces.{told};
ghost use Rattle.report.specs.PulseTexts.{slot_line, row_lines, sheet_text, Stopped, TextWritten, TextTold, RoomLeft, PartWritten, LineGiven};

use kinds::Total;
use refusals::Refusal;
use sheets::{Sheet, Stop};
use shelves::Shelf;
use writer::{Lines, Naming};
use writing::{
    PulseLine, room_behind_pulse, room_behind_pulse_names, write_pulse, write_pulse_names,
};

const TOO_SHORT: Stop = Stop::Refused(Refusal::OutputTooShort);

// Writes the pulse text of a sheet and answers its bytes. Where the buffer is too short for all of
// them it is left alone.
pub fn write_pulses<K: Total, S: Shelf<K>>(
    sheet: &Sheet<K, S>,
    out: &mut [u8],
) -> Result<usize, Stop>
    ensures answer { TextWritten K.kind (state_of S.slots S.outside sheet.now) out.old out.new result }
    ensures stop { Stopped 0 (sheet_text K.kind (state_of S.slots S.outside sheet.now)) out.old out.new result }
    ensures history { TextTold K.kind (state_of S.slots S.outside sheet.now) result }
{
    write_text(sheet, out)
}

// The same. The room is tested first, so that the lines that follow cannot fail.
// Apart from the public call, which has no proof file: an edit of that call is then refused by a fact.
fn write_text<K: Total, S: Shelf<K>>(sheet: &Sheet<K, S>, out: &mut [u8]) -> Result<usize, Stop>
    ensures answer { TextWritten K.kind (state_of S.slots S.outside sheet.now) out.old out.new result }
    ensures stop { Stopped 0 (sheet_text K.kind (state_of S.slots S.outside sheet.now)) out.old out.new result }
    ensures history { TextTold K.kind (state_of S.slots S.outside sheet.now) result }
{
    room_behind_text(sheet, out.len())?;
    write_whole(sheet, out)
}

// Writes the text into a buffer that has room.
fn write_whole<K: Total, S: Shelf<K>>(sheet: &Sheet<K, S>, out: &mut [u8]) -> Result<usize, Stop>
    requires { length (sheet_text K.kind (state_of S.slots S.outside sheet.now)) ≤ length out.old }
    ensures answer { PartWritten K.kind (state_of S.slots S.outside sheet.now) 0 (sheet_text K.kind (state_of S.slots S.outside sheet.now)) out.old out.new result }
    ensures stop { Stopped 0 (sheet_text K.kind (state_of S.slots S.outside sheet.now)) out.old out.new result }
{
    let Ok(named) = write_pulse_names::<K>(Naming::begin(), out) else {
        return Err(Stop::Unreachable);
    };
    let text = write_lines(sheet, named, out)?;
    Ok(text.end().length())
}

// What is left of so many bytes behind the pulse text of a sheet.
fn room_behind_text<K: Total, S: Shelf<K>>(sheet: &Sheet<K, S>, room: usize) -> Result<usize, Stop>
    ensures { RoomLeft K.kind (state_of S.slots S.outside sheet.now) (length (sheet_text K.kind (state_of S.slots S.outside sheet.now))) room result }
{
    let left = room_behind_pulse_names::<K>(room).ok_or(TOO_SHORT)?;
    room_behind_lines(sheet, left)
}

// The same behind the lines of its pulses.
#[tactic(auto, using(crate::proofs::TextFacts::rows_none))]
fn room_behind_lines<K: Total, S: Shelf<K>>(sheet: &Sheet<K, S>, room: usize) -> Result<usize, Stop>
    ensures { RoomLeft K.kind (state_of S.slots S.outside sheet.now) (length (row_lines K.kind (state_of S.slots S.outside sheet.now).count (state_of S.slots S.outside sheet.now).slots)) room result }
{
    let mut left = room;
    for number in 1..=sheet.pulses() {
        left = room_behind_line(sheet, number, left)?;
    }
    Ok(left)
}

// The same behind the line of the pulse of a number.
fn room_behind_line<K: Total, S: Shelf<K>>(
    sheet: &Sheet<K, S>,
    number: usize,
    room: usize,
) -> Result<usize, Stop>
    requires { (1 ≤ number) × (number ≤ (state_of S.slots S.outside sheet.now).count) }
    ensures { RoomLeft K.kind (state_of S.slots S.outside sheet.now) (length (slot_line K.kind (state_of S.slots S.outside sheet.now).slots number)) room result }
{
    let line = line_of(sheet, number)?;
    room_behind_pulse(line, room).ok_or(TOO_SHORT)
}

// Writes the lines of the pulses behind the names line.
fn write_lines<K: Total, S: Shelf<K>>(
    sheet: &Sheet<K, S>,
    named: Lines,
    out: &mut [u8],
) -> Result<Lines, Stop>
    requires { named.at + length (row_lines K.kind (state_of S.slots S.outside sheet.now).count (state_of S.slots S.outside sheet.now).slots) ≤ length out.old }
    ensures answer { PartWritten K.kind (state_of S.slots S.outside sheet.now) named.at (row_lines K.kind (state_of S.slots S.outside sheet.now).count (state_of S.slots S.outside sheet.now).slots) out.old out.new (told (λ t. t.at) (λ e. e) result) }
    ensures stop { Stopped named.at (row_lines K.kind (state_of S.slots S.outside sheet.now).count (state_of S.slots S.outside sheet.now).slots) out.old out.new (told (λ t. t.at) (λ e. e) result) }
{
    let mut text = named;
    for number in 1..=sheet.pulses() {
        text = write_line(sheet, number, text, out)?;
    }
    Ok(text)
}

// Writes the line of the pulse of a number.
#[tactic(auto, using(crate::proofs::TextFacts::cut_none))]
fn write_line<K: Total, S: Shelf<K>>(
    sheet: &Sheet<K, S>,
    number: usize,
    text: Lines,
    out: &mut [u8],
) -> Result<Lines, Stop>
    requires { (1 ≤ number) × ((number ≤ (state_of S.slots S.outside sheet.now).count) × (text.at + length (slot_line K.kind (state_of S.slots S.outside sheet.now).slots number) ≤ length out.old)) }
    ensures answer { PartWritten K.kind (state_of S.slots S.outside sheet.now) text.at (slot_line K.kind (state_of S.slots S.outside sheet.now).slots number) out.old out.new (told (λ t. t.at) (λ e. e) result) }
    ensures stop { Stopped text.at (slot_line K.kind (state_of S.slots S.outside sheet.now).slots number) out.old out.new (told (λ t. t.at) (λ e. e) result) }
{
    let line = line_of(sheet, number)?;
    write_pulse(text, line, out).map_err(|_| Stop::Unreachable)
}

// What the line of the pulse of a number tells.
#[tactic(auto, using(crate::proofs::TextFacts::listed_line))]
fn line_of<K: Total, S: Shelf<K>>(sheet: &Sheet<K, S>, number: usize) -> Result<PulseLine<K>, Stop>
    requires { (1 ≤ number) × (number ≤ (state_of S.slots S.outside sheet.now).count) }
    ensures { LineGiven K.kind K.columns (state_of S.slots S.outside sheet.now) number result }
{
    let pulse = sheet.pulse(number)?;
    Ok(PulseLine {
        number,
        width: usize::from(pulse.stretch.width),
        first: usize::from(pulse.stretch.first),
        amount: pulse.amount,
        state: pulse.mark,
    })
}
