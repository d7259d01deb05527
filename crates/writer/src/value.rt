// What may stand in a line that is written: the names of columns, numbers and words.
ghost use Rattle.std.specs.Prelude.{◌≡◌, ℕ, ◌+◌, ◌≤◌, List, length};
ghost use Rattle.writer.specs.Written.{pasted};
ghost use Rattle.writer.specs.Values.{shown, spelled};
ghost use Rattle.figures.specs.Headings.{letters};

use crate::bytes::put_bytes;
use crate::digits::{count_digits, count_signed, put_digits, put_signed};
use figures::Heading;
use itoa::Buffer;
use shelves::Mark;

// The word for a mark.
pub fn word_of(mark: Mark) -> &'static [u8]
    ensures { result.now ≡ spelled mark }
{
    match mark {
        Mark::In => b"in",
        Mark::Out => b"out",
    }
}

// A value of a line: a count, a column of a total, or the word for a mark.
#[derive(Clone, Copy)]
pub enum Value {
    Count(usize),
    Amount(i64),
    Word(Mark),
}

// What can be written into a field.
pub trait Shown {
    ghost bytes: { Self → List ℕ };

    // How many bytes its text has.
    fn width(&self) -> usize
        ensures { result ≡ length (bytes self.now) }
    {
        self.text(&mut Buffer::new()).len()
    }

    // Its text, which for a number lies in the buffer.
    fn text<'a>(&self, digits: &'a mut Buffer) -> &'a [u8]
        ensures { result.now ≡ bytes self.now };
}

// What is written into a buffer.
pub(crate) trait Put: Shown {
    // Writes its text at a place of the buffer, and answers the place behind it.
    fn put(&self, out: &mut [u8], at: usize) -> usize
        requires { at + length (Self.bytes self.now) ≤ length out.old }
        ensures bytes { out.new ≡ pasted at (Self.bytes self.now) out.old }
        ensures end { result ≡ at + length (Self.bytes self.now) }
    {
        put_bytes(out, at, self.text(&mut Buffer::new()))
    }
}

impl Shown for Heading {
    ghost bytes = { letters };

    fn text<'a>(&self, _digits: &'a mut Buffer) -> &'a [u8] {
        self.letters()
    }
}

impl Put for Heading {}

impl Shown for Value {
    ghost bytes = { shown };

    fn width(&self) -> usize {
        match *self {
            Value::Count(number) => count_digits(number as u64),
            Value::Amount(number) => count_signed(number),
            Value::Word(word) => word_of(word).len(),
        }
    }

    fn text<'a>(&self, digits: &'a mut Buffer) -> &'a [u8] {
        match *self {
            Value::Count(number) => digits.format(number).as_bytes(),
            Value::Amount(number) => digits.format(number).as_bytes(),
            Value::Word(word) => word_of(word),
        }
    }
}

impl Put for Value {
    fn put(&self, out: &mut [u8], at: usize) -> usize {
        match *self {
            Value::Count(number) => put_digits(out, at, number as u64),
            Value::Amount(number) => put_signed(out, at, number),
            Value::Word(word) => put_bytes(out, at, word_of(word)),
        }
    }
}
