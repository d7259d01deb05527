// The lines of a script, and what they ask for.
ghost use Rattle.std.specs.Prelude.{◌<◌, ◌≤◌, length, OnSome};
ghost use Rattle.std.specs.Iterator.{at_most};

// The largest size, work list or list that a script may ask for.
const MOST: usize = 1_000_000;

#[derive(Clone, Copy)]
pub enum Kind {
    Paper,
    Mobile,
}

#[derive(Clone, Copy)]
pub enum Storage {
    Rows,
    Bytes,
}

// What the first line makes.
#[derive(Clone, Copy)]
pub struct Opening {
    pub kind: Kind,
    pub storage: Storage,
    pub size: usize,
}

#[derive(Clone, Copy)]
pub enum Command<'a> {
    // so many work entries, and the lines that follow, of which the last need not be ended
    Take(usize, &'a [u8]),
    Remove(usize, usize),
    Restore(usize, usize),
    RemoveOne(usize),
    RestoreOne(usize),
    Days,
    Pulses,
    Pulse(usize),
    Standing(usize),
    Trace(usize),
    Swing,
    List,
    Memory,
}

// A line that asks for nothing.
#[derive(Clone, Copy)]
pub struct NotACall;

// A script by what is still to be read of it. A last line need not be ended.
#[derive(Drop)]
pub struct Script<'a> {
    left: &'a [u8],
}

// The first line of some bytes, and what follows its line feed.
fn split_line(bytes: &[u8]) -> (&[u8], &[u8])
    requires { 0 < length bytes.now }
    ensures { length result.1.now < length bytes.now }
{
    match bytes.iter().position(|byte| *byte == b'\n') {
        Some(end) => (&bytes[..end], &bytes[end + 1..]),
        None => (bytes, &[]),
    }
}

// The lines up to an empty one, and what follows that.
fn split_text(bytes: &[u8]) -> (&[u8], &[u8])
    ensures { length result.1.now ≤ length bytes.now }
{
    if let [b'\n', rest @ ..] = bytes {
        return (&[], rest);
    }
    match bytes.windows(2).position(|pair| pair == b"\n\n".as_slice()) {
        Some(end) => (&bytes[..end + 1], &bytes[end + 2..]),
        None => (bytes, &[]),
    }
}

// A plain decimal number below 2^64, without leading zeros. By hand: `parse` takes a plus and zeros.
fn number_of(word: &[u8]) -> Option<usize> {
    if let [] | [b'0', _, ..] = word {
        return None;
    }
    let mut value = 0usize;
    for byte in word {
        let digit = match *byte {
            b'0'..=b'9' => (*byte - b'0') as usize,
            _ => return None,
        };
        value = value.checked_mul(10)?.checked_add(digit)?;
    }
    Some(value)
}

fn within_most(word: &[u8]) -> Option<usize> {
    number_of(word).filter(|number| *number <= MOST)
}

fn opening_of(line: &[u8]) -> Option<Opening> {
    let mut words = line.split(|byte| *byte == b' ');
    let kind = match words.next()? {
        b"paper" => Kind::Paper,
        b"mobile" => Kind::Mobile,
        _ => return None,
    };
    let storage = match words.next()? {
        b"rows" => Storage::Rows,
        b"bytes" => Storage::Bytes,
        _ => return None,
    };
    let size = within_most(words.next()?)?;
    if words.next().is_some() {
        return None;
    }
    Some(Opening {
        kind,
        storage,
        size,
    })
}

impl<'a> Script<'a> {
    pub fn new(input: &'a [u8]) -> Script<'a> {
        Script { left: input }
    }

    // The next line, or nothing at the end.
    fn line(&mut self) -> Option<&'a [u8]>
        ensures { OnSome result (length self.new.left.now < length self.old.left.now) }
    {
        if self.left.is_empty() {
            return None;
        }
        let (line, rest) = split_line(self.left);
        self.left = rest;
        Some(line)
    }

    // The lines up to an empty one or the end.
    fn text(&mut self) -> &'a [u8]
        ensures { length self.new.left.now ≤ length self.old.left.now }
    {
        let (text, rest) = split_text(self.left);
        self.left = rest;
        text
    }

    // What the first line makes, unless it makes no sheet.
    pub fn opening(&mut self) -> Option<Opening> {
        opening_of(self.line()?)
    }

    // What a line asks for, with the text behind it where it takes one.
    fn command(&mut self, line: &'a [u8]) -> Option<Command<'a>>
        ensures { length self.new.left.now ≤ length self.old.left.now }
    {
        let mut words = line.split(|byte| *byte == b' ');
        let words = [words.next(), words.next(), words.next(), words.next()];
        let command = match words {
            [Some(b"days"), None, ..] => Command::Days,
            [Some(b"pulses"), None, ..] => Command::Pulses,
            [Some(b"swing"), None, ..] => Command::Swing,
            [Some(b"list"), None, ..] => Command::List,
            [Some(b"memory"), None, ..] => Command::Memory,
            [Some(b"remove-one"), Some(number), None, _] => Command::RemoveOne(number_of(number)?),
            [Some(b"restore-one"), Some(number), None, _] => {
                Command::RestoreOne(number_of(number)?)
            }
            [Some(b"pulse"), Some(number), None, _] => Command::Pulse(number_of(number)?),
            [Some(b"standing"), Some(day), None, _] => Command::Standing(number_of(day)?),
            [Some(b"trace"), Some(room), None, _] => Command::Trace(within_most(room)?),
            [Some(b"take"), Some(entries), None, _] => {
                Command::Take(within_most(entries)?, self.text())
            }
            [Some(b"remove"), Some(low), Some(high), None] => {
                Command::Remove(number_of(low)?, number_of(high)?)
            }
            [Some(b"restore"), Some(low), Some(high), None] => {
                Command::Restore(number_of(low)?, number_of(high)?)
            }
            _ => return None,
        };
        Some(command)
    }
}

// What each line asks for.
impl<'a> Iterator for Script<'a> {
    type Item = Result<Command<'a>, NotACall>;

    ghost remaining = { λ s. at_most (length s.left.now) };

    fn next(&mut self) -> Option<Result<Command<'a>, NotACall>> {
        let line = self.line()?;
        Some(self.command(line).ok_or(NotACall))
    }
}
