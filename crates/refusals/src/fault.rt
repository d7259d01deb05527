// What is wrong with a text: a field's fault goes whole into the line's, and that into the file's.
ghost use Rattle.std.specs.Prelude.{◌≡◌};
ghost use Rattle.refusals.specs.Table.{number};
ghost use Rattle.refusals.specs.declared.fault.FileFault.TheVariants.{Reading};
ghost use Rattle.refusals.specs.declared.fault.LineFault.TheVariants.{InField};
ghost use Rattle.refusals.specs.Faults.{at_line, field_refusal, field_byte, line_refusal, line_place, refusal_of, place_of, ToldApart};

use crate::refusal::{Place, Refusal};

// What is wrong at a field, and the byte of the text where it stands.
#[derive(Clone, Copy, Debug, PartialEq, Eq)]
pub enum FieldFault {
    // a name unknown or repeated; where one is missing, or the line feed, the end of the line
    BadName { byte: usize },
    BadFigure { byte: usize },
    // a day that is not the next one
    BadDay { byte: usize },
}

// A field's fault with its line, on its way into a line's fault.
#[derive(Clone, Copy, Debug, PartialEq, Eq)]
pub struct FaultAtLine {
    pub line: usize,
    pub fault: FieldFault,
}

// What is wrong with a line, counted from 1; a fault of the line as a whole stands at its first byte.
#[derive(Clone, Copy, Debug, PartialEq, Eq)]
pub enum LineFault {
    InField {
        line: usize,
        fault: FieldFault,
    },
    // a wrong count of fields, or no line feed
    BadCount {
        line: usize,
        byte: usize,
    },
    // a day after the 1,000th
    BeyondDays {
        line: usize,
        byte: usize,
    },
    // a total that may not be entered, or columns of which the kind has no value
    BadTotal {
        line: usize,
        byte: usize,
        day: usize,
    },
}

// What went wrong with a file: in reading a line of it, in reading it as a whole, in taking its
// record or in writing.
#[derive(Clone, Copy, Debug, PartialEq, Eq)]
pub enum FileFault {
    Reading(LineFault),
    ReadingWhole(Refusal),
    Taking(Refusal),
    Writing(Refusal),
}

impl From<FaultAtLine> for LineFault {
    ghost from_gives = { λ x y. y ≡ InField x.line x.fault };

    fn from(value: FaultAtLine) -> LineFault {
        LineFault::InField {
            line: value.line,
            fault: value.fault,
        }
    }
}

impl From<LineFault> for FileFault {
    ghost from_gives = { λ x y. y ≡ Reading x };

    fn from(value: LineFault) -> FileFault {
        FileFault::Reading(value)
    }
}

impl FieldFault {
    // The fault with its line added.
    pub fn on_line(self, line: usize) -> FaultAtLine
        ensures { result ≡ at_line line self }
    {
        FaultAtLine { line, fault: self }
    }

    fn refusal(self) -> Refusal
        ensures { result ≡ field_refusal self }
    {
        match self {
            FieldFault::BadName { .. } => Refusal::WrongNames,
            FieldFault::BadFigure { .. } => Refusal::MalformedFigure,
            FieldFault::BadDay { .. } => Refusal::DayOutOfTurn,
        }
    }

    fn byte(self) -> usize
        ensures { result ≡ field_byte self }
    {
        match self {
            FieldFault::BadName { byte }
            | FieldFault::BadFigure { byte }
            | FieldFault::BadDay { byte } => byte,
        }
    }
}

impl LineFault {
    fn refusal(self) -> Refusal
        ensures { result ≡ line_refusal self }
    {
        match self {
            LineFault::InField { fault, .. } => fault.refusal(),
            LineFault::BadCount { .. } => Refusal::WrongFields,
            LineFault::BeyondDays { .. } => Refusal::TooManyDays,
            LineFault::BadTotal { day, .. } => Refusal::MayNotEnter { day },
        }
    }

    fn place(self) -> Place
        ensures { result ≡ line_place self }
    {
        match self {
            LineFault::InField { line, fault } => Place {
                line,
                byte: fault.byte(),
            },
            LineFault::BadCount { line, byte }
            | LineFault::BeyondDays { line, byte }
            | LineFault::BadTotal { line, byte, .. } => Place { line, byte },
        }
    }
}

impl FileFault {
    // The case of the table of refusals.
    pub fn refusal(self) -> Refusal
        ensures { result ≡ refusal_of self }
    {
        match self {
            FileFault::Reading(fault) => fault.refusal(),
            FileFault::ReadingWhole(refusal)
            | FileFault::Taking(refusal)
            | FileFault::Writing(refusal) => refusal,
        }
    }

    // The number under which the table lists the case.
    pub fn number(self) -> u8
        ensures { result ≡ number (refusal_of self) }
    {
        self.refusal().number()
    }

    // Where in the text. Stays line 0, byte 0 where there is no place: texts of refusals say so.
    pub fn place(self) -> Place
        ensures { result ≡ place_of self }
    {
        match self {
            FileFault::Reading(fault) => fault.place(),
            FileFault::ReadingWhole(_) | FileFault::Taking(_) | FileFault::Writing(_) => NOWHERE,
        }
    }
}

// The law of faults, for proofs above: number, line and byte of a fault of reading determine it.
pub fn faults_told_apart()
    ensures { ToldApart }
{}

const NOWHERE: Place = Place { line: 0, byte: 0 };
