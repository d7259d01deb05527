// A record split onto a shelf.
ghost use Rattle.std.specs.Prelude.{map, length};
ghost use Rattle.splitting.specs.Records.{Splits};

use crate::limits::admit;
use crate::widths::split_widths;
use crate::work::WorkEntry;
use kinds::Total;
use refusals::Refusal;
use shelves::Shelf;

// Splits a record into its pulses and puts their rows into the first slots, each marked in. Answers
// the number of pulses. A refusal leaves shelf and work list as they were.
pub fn split_record<K: Total, S: Shelf<K>>(
    totals: &[K],
    work: &mut [WorkEntry<K>],
    shelf: &mut S,
) -> Result<usize, Refusal>
    ensures { Splits K.kind (map K.columns totals.now) (length work.old) (S.slots shelf.old) (S.slots shelf.new) (S.outside shelf.old) (S.outside shelf.new) shelf.old shelf.new work.old work.new result }
{
    admit(totals, work.len(), shelf.capacity())?;
    Ok(split_widths(totals, work, shelf))
}
