ghost use Rattle.std.specs.Prelude.{◌≡◌};
ghost use Rattle.refusals.specs.Table.{number, day};

// Each case is the only ground for its number.
#[derive(Clone, Copy, Debug, PartialEq, Eq)]
pub enum Refusal {
    // a record or a text of more than 1,000 days
    TooManyDays,
    // the first day, in order, whose total may not be entered; days count from 1
    MayNotEnter { day: usize },
    // a work list of fewer than days + 2 entries
    WorkTooShort,
    // a shelf of fewer slots than days
    ShelfTooSmall,
    // a lowest width of 0 or above the highest, or a highest width over 1,000
    WidthsOutOfRange,
    // pulse number 0, or over the number of pulses
    NoSuchPulse,
    // day 0, or over the number of days
    NoSuchDay,
    // a caller's list of fewer totals than days
    ListTooShort,
    // a text of more than 40,000 bytes
    TextTooLong,
    // a name unknown, repeated or missing, or a names line that is not ended
    WrongNames,
    // a malformed figure
    MalformedFigure,
    // a wrong count of fields, or a line that is not ended
    WrongFields,
    // a day field that is not the next day
    DayOutOfTurn,
    // an output buffer too short for the bytes due
    OutputTooShort,
}

// Where in a text: the line, counted from 1, and the byte, counted from 0 over the whole text.
// A refusal that has no place has line 0, byte 0.
#[derive(Clone, Copy, Debug, PartialEq, Eq)]
pub struct Place {
    pub line: usize,
    pub byte: usize,
}

impl Refusal {
    // The number under which the table lists the case. Stays a method: a `From` would lose the day.
    pub fn number(self) -> u8
        ensures { result ≡ number self }
    {
        match self {
            Refusal::TooManyDays => 1,
            Refusal::MayNotEnter { .. } => 2,
            Refusal::WorkTooShort => 3,
            Refusal::ShelfTooSmall => 4,
            Refusal::WidthsOutOfRange => 5,
            Refusal::NoSuchPulse => 6,
            Refusal::NoSuchDay => 7,
            Refusal::ListTooShort => 8,
            Refusal::TextTooLong => 9,
            Refusal::WrongNames => 10,
            Refusal::MalformedFigure => 11,
            Refusal::WrongFields => 12,
            Refusal::DayOutOfTurn => 13,
            Refusal::OutputTooShort => 14,
        }
    }

    // The day that the refusal names. Stays 0 where it names none: days count from 1.
    pub fn day(self) -> usize
        ensures { result ≡ day self }
    {
        match self {
            Refusal::MayNotEnter { day } => day,
            _ => 0,
        }
    }
}
