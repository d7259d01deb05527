ghost use Rattle.std.specs.Prelude.{◌≡◌, map, length};
ghost use Rattle.sheets.specs.declared.sheet.Stop.TheVariants.{Refused};
ghost use Rattle.sheets.specs.Takes.{Take, state_of};
ghost use Rattle.sheets.specs.Calls.{taking};
ghost use Rattle.sheets.specs.History.{Continues};
ghost use Rattle.sheets.specs.Promise.{Keeps};

use kinds::Total;
use refusals::Refusal;
use shelves::Shelf;
use splitting::{WorkEntry, split_record};
use std::marker::PhantomData;

// Why a call of a sheet gave no answer.
#[derive(Clone, Copy, Debug, PartialEq, Eq)]
pub enum Stop {
    // it was refused, by the table
    Refused(Refusal),
    // a state that no list of calls leads to
    Unreachable,
}

impl From<Refusal> for Stop {
    ghost from_gives = { λ refusal stop. stop ≡ Refused refusal };

    fn from(refusal: Refusal) -> Stop {
        Stop::Refused(refusal)
    }
}

// A sheet over a shelf: the pulses of one record, pulse i in slot i - 1.
#[derive(Drop)]
pub struct Sheet<K, S> {
    pub(crate) shelf: S,
    pub(crate) days: usize,
    pub(crate) pulses: usize,
    pub(crate) kind: PhantomData<K>,
}

impl<K: Total, S: Shelf<K>> Sheet<K, S> {
    // Splits a record into its pulses and puts their rows, each marked in. What the sheet had is
    // replaced. Answers the number of pulses.
    pub(crate) fn take_record(
        &mut self,
        totals: &[K],
        work: &mut [WorkEntry<K>],
    ) -> Result<usize, Stop>
        ensures answer { Take K.kind (map K.columns totals.now) (length work.old) (state_of S.slots S.outside self.old) (state_of S.slots S.outside self.new) self.old self.new work.old work.new result }
        ensures history { Continues K.kind (taking (map K.columns totals.now) (length work.old)) (state_of S.slots S.outside self.old) (state_of S.slots S.outside self.new) result }
        ensures promise { Keeps K.kind (taking (map K.columns totals.now) (length work.old)) (state_of S.slots S.outside self.old) (state_of S.slots S.outside self.new) }
    {
        self.hold_record(totals, work)
    }

    // Splits a record and holds its pulses in place of what the sheet had.
    fn hold_record(&mut self, totals: &[K], work: &mut [WorkEntry<K>]) -> Result<usize, Stop>
        ensures { Take K.kind (map K.columns totals.now) (length work.old) (state_of S.slots S.outside self.old) (state_of S.slots S.outside self.new) self.old self.new work.old work.new result }
    {
        let pulses = split_record(totals, work, &mut self.shelf)?;
        self.days = totals.len();
        self.pulses = pulses;
        Ok(pulses)
    }
}
