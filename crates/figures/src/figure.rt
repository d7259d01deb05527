// The figure reader: a machine over the bytes of one field.
ghost use Rattle.std.specs.Prelude.{◌≡◌, ℕ, List, [], ◌∷◌};
ghost use Rattle.figures.specs.Bytes.{class_of};
ghost use Rattle.figures.specs.Figures.{figure};
ghost use Rattle.figures.specs.Laws.{FiguresAgree};
ghost use Rattle.figures.specs.Reader.{outcome};

use crate::byte::{Class, class_of};
use crate::digits::{Digits, MOST_DIGITS};

// What was read so far.
#[derive(Clone, Copy)]
pub enum FigureReader {
    // nothing
    Start,
    // a minus
    Signed,
    // just a 0
    Zero,
    // digits, perhaps behind a minus
    Begun(Digits),
    // something that begins no figure
    Wrong,
}

impl FigureReader {
    // Takes one byte in.
    fn step(&mut self, b: u8)
        ensures { (bs : List ℕ) → outcome self.new bs ≡ outcome self.old (b ∷ bs) }
    {
        *self = match (*self, class_of(b)) {
            (_, Class::Comma | Class::LineFeed | Class::Other) => FigureReader::Wrong,
            (FigureReader::Start, Class::Minus) => FigureReader::Signed,
            (FigureReader::Start, Class::Digit(0)) => FigureReader::Zero,
            // there is no -0
            (FigureReader::Signed, Class::Digit(0)) => FigureReader::Wrong,
            (FigureReader::Start, Class::Digit(d)) => FigureReader::Begun(Digits::first(false, d)),
            (FigureReader::Signed, Class::Digit(d)) => FigureReader::Begun(Digits::first(true, d)),
            (FigureReader::Begun(digits), Class::Digit(d)) if digits.count < MOST_DIGITS => {
                FigureReader::Begun(digits.further(d))
            }
            (_, _) => FigureReader::Wrong,
        };
    }

    // What was read, once the field is over.
    fn end(self) -> Option<i64>
        ensures { result ≡ outcome self [] }
    {
        match self {
            FigureReader::Zero => Some(0),
            FigureReader::Begun(digits) => Some(digits.number()),
            FigureReader::Start | FigureReader::Signed | FigureReader::Wrong => None,
        }
    }
}

// What the bytes of a figure say, or nothing where they are no figure.
pub fn read_figure(bytes: &[u8]) -> Option<i64>
    ensures { result ≡ figure bytes.now }
{
    let mut reader = FigureReader::Start;
    for b in bytes {
        reader.step(*b);
        if let FigureReader::Wrong = reader {
            return None;
        }
    }
    reader.end()
}

// The law of figures, for proofs above: what is written reads back, and what reads is what would be written.
pub fn figures_agree()
    ensures { FiguresAgree }
{}
