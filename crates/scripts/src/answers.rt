// How answers are printed.
use kinds::Total;
use sheets::{ListedPulse, Stop};
use shelves::Mark;
use std::fmt;

// The columns of a total, joined by a comma.
#[derive(Clone, Copy)]
pub struct Columns<K>(pub K);

impl<K: Total> fmt::Display for Columns<K> {
    fn fmt<W: fmt::Write>(&self, f: &mut fmt::Formatter<W>) -> fmt::Result {
        let first = self.0.column(1).unwrap_or(0);
        match self.0.column(2) {
            Some(second) => write!(f, "{first},{second}"),
            None => write!(f, "{first}"),
        }
    }
}

// Totals separated by a space.
#[derive(Clone, Copy)]
pub struct Totals<'a, K>(pub &'a [K]);

impl<K: Total> fmt::Display for Totals<'_, K> {
    fn fmt<W: fmt::Write>(&self, f: &mut fmt::Formatter<W>) -> fmt::Result {
        for (i, total) in self.0.iter().enumerate() {
            let gap = if i > 0 { " " } else { "" };
            write!(f, "{gap}{}", Columns(*total))?;
        }
        Ok(())
    }
}

// A pulse under its number.
#[derive(Clone, Copy)]
pub struct Numbered<K>(pub usize, pub ListedPulse<K>);

impl<K: Total> fmt::Display for Numbered<K> {
    fn fmt<W: fmt::Write>(&self, f: &mut fmt::Formatter<W>) -> fmt::Result {
        let number = self.0;
        let pulse = self.1;
        let width = pulse.stretch.width;
        let first = pulse.stretch.first;
        let state = match pulse.mark {
            Mark::In => "in",
            Mark::Out => "out",
        };
        write!(
            f,
            "{number},{width},{first},{},{state}",
            Columns(pulse.amount)
        )
    }
}

// Why a call or a question was stopped.
#[derive(Clone, Copy)]
pub struct Stopped(pub Stop);

impl fmt::Display for Stopped {
    fn fmt<W: fmt::Write>(&self, f: &mut fmt::Formatter<W>) -> fmt::Result {
        match self.0 {
            Stop::Refused(refusal) => write!(f, "refusal {}", refusal.number()),
            Stop::Unreachable => write!(f, "unreachable"),
        }
    }
}

// What a call or a question comes to.
#[derive(Drop)]
pub struct Answer<T>(pub Result<T, Stop>);

impl<T: fmt::Display> fmt::Display for Answer<T> {
    fn fmt<W: fmt::Write>(&self, f: &mut fmt::Formatter<W>) -> fmt::Result {
        match &self.0 {
            Ok(value) => write!(f, "{value}"),
            Err(stop) => write!(f, "{}", Stopped(*stop)),
        }
    }
}
