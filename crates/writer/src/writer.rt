// The writer of texts: the names line first, then lines of values, then the end. The states are
// moved numbers; the buffer is lent at each call.
ghost use Rattle.std.specs.Prelude.{◌≡◌, ℕ, ◌+◌, ◌≤◌, Bool, List, [], ◌∷◌, ◌++◌, length};
ghost use Rattle.refusals.specs.declared.refusal.Refusal.TheVariants.{OutputTooShort};
ghost use Rattle.refusals.specs.declared.fault.FileFault.TheVariants.{Writing};
ghost use Rattle.figures.specs.Headings.{letters};
ghost use Rattle.reading.specs.Traces.{told};
ghost use Rattle.writer.specs.Values.{line, shown};
ghost use Rattle.writer.specs.Turns.{WriteTheNamesFirst, BeginAnotherText};
ghost use Rattle.writer.specs.Written.{pasted, Leaves, Writes, Moves};

use crate::bytes::put_byte;
use crate::value::{Put, Shown, Value};
use figures::Heading;
use reading::{COMMA, LINE_FEED};
use refusals::{FileFault, Refusal};

// What is left of so many bytes behind a line of these items, or nothing where it does not fit.
pub fn room_behind<S: Shown>(items: &[S], room: usize) -> Option<usize>
    ensures { Leaves (length (line S.Shown.bytes items.now)) room result }
{
    if items.is_empty() {
        return room.checked_sub(1);
    }
    let mut left = room;
    for item in items {
        let width = item.width();
        if left <= width {
            return None;
        }
        left -= width + 1;
    }
    Some(left)
}

// Writes an item and the byte behind it.
fn put_field<S: Put>(item: &S, behind: u8, out: &mut [u8], at: usize) -> usize
    requires { at + length (S.Shown.bytes item.now) + 1 ≤ length out.old }
    ensures bytes { out.new ≡ pasted at (S.Shown.bytes item.now ++ (behind ∷ [])) out.old }
    ensures end { result ≡ at + length (S.Shown.bytes item.now) + 1 }
{
    let end = item.put(out, at);
    put_byte(out, end, behind);
    end + 1
}

// Writes a line of these items, and answers the place behind it. It is inlined, as those that call it
// are, since most lines are of fields whose kinds are known where they are written.
#[inline(always)]
fn put_line<S: Put>(items: &[S], out: &mut [u8], at: usize) -> usize
    requires { at + length (line S.Shown.bytes items.now) ≤ length out.old }
    ensures bytes { out.new ≡ pasted at (line S.Shown.bytes items.now) out.old }
    ensures end { result ≡ at + length (line S.Shown.bytes items.now) }
{
    let Some((last, rest)) = items.split_last() else {
        put_byte(out, at, LINE_FEED);
        return at + 1;
    };
    let mut end = at;
    for item in rest {
        end = put_field(item, COMMA, out, end);
    }
    put_field(last, LINE_FEED, out, end)
}

// Writes a line of these items if it fits, and answers the place behind it.
#[inline(always)]
fn write_line<S: Put>(items: &[S], out: &mut [u8], at: usize) -> Option<usize>
    ensures { Writes at (line S.Shown.bytes items.now) out.old out.new result }
{
    let room = out.len().checked_sub(at)?;
    room_behind(items, room)?;
    Some(put_line(items, out, at))
}

// A text whose names line is due.
#[derive(Drop)]
pub struct Naming {
    at: usize,
}

// A text whose names line is written: lines of values or the end are due.
#[derive(Drop)]
pub struct Lines {
    at: usize,
}

// A text that is ended.
#[derive(Drop)]
pub struct Ended {
    at: usize,
}

// The buffer is too short for the bytes due (14); the state is as it was.
#[derive(Drop)]
pub struct Short<S> {
    pub state: S,
}

impl<S> Short<S> {
    pub fn refusal(&self) -> Refusal
        ensures { result ≡ OutputTooShort }
    {
        Refusal::OutputTooShort
    }
}

impl<S: Drop> From<Short<S>> for FileFault {
    ghost from_gives = { λ _ y. y ≡ Writing OutputTooShort };

    fn from(value: Short<S>) -> FileFault {
        FileFault::Writing(value.refusal())
    }
}

impl Naming {
    // Begins a text at the start of a buffer.
    pub fn begin() -> Naming
        ensures { result.at ≡ 0 }
    {
        Naming { at: 0 }
    }

    // Writes the names line.
    #[inline(always)]
    pub fn names(self, names: &[Heading], out: &mut [u8]) -> Result<Lines, Short<Naming>>
        ensures { Moves self.at (line letters names.now) out.old out.new (told (λ s. s.at) (λ e. e.state.at) result) }
    {
        write_line(names, out, self.at)
            .map(|at| Lines { at })
            .ok_or(Short { state: self })
    }

    // No line of values stands before the names line: no text in this state has it written, so
    // nothing can call this. It would write nothing and hand the state back.
    pub fn line(self, values: &[Value], out: &mut [u8]) -> Result<Lines, Short<Naming>>
        requires { WriteTheNamesFirst self }
        ensures kept { out.new ≡ out.old }
        ensures back { told (λ s. s.at) (λ e. e.state.at) result ≡ Err self.at }
    {
        Err(Short { state: self })
    }
}

impl Lines {
    // Writes a line of values.
    #[inline(always)]
    pub fn line(self, values: &[Value], out: &mut [u8]) -> Result<Lines, Short<Lines>>
        ensures { Moves self.at (line shown values.now) out.old out.new (told (λ s. s.at) (λ e. e.state.at) result) }
    {
        write_line(values, out, self.at)
            .map(|at| Lines { at })
            .ok_or(Short { state: self })
    }

    // Ends the text.
    pub fn end(self) -> Ended
        ensures { result.at ≡ self.at }
    {
        Ended { at: self.at }
    }
}

impl Ended {
    // How many bytes the text has.
    pub fn length(&self) -> usize
        ensures { result ≡ self.now.at }
    {
        self.at
    }

    // No line stands behind the end of a text: no text that has ended is empty, so nothing can call
    // this. It would write nothing and hand the state back.
    pub fn line(self, values: &[Value], out: &mut [u8]) -> Result<Lines, Short<Ended>>
        requires { BeginAnotherText self }
        ensures kept { out.new ≡ out.old }
        ensures back { told (λ s. s.at) (λ e. e.state.at) result ≡ Err self.at }
    {
        Err(Short { state: self })
    }
}
