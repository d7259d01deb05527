// A record split into its pulses, width by width.
ghost use Rattle.std.specs.Prelude.{◌≡◌, map, length};
ghost use Rattle.transform.specs.Pulses.{pulses};
ghost use Rattle.splitting.specs.Records.{Accepted, laid};

use crate::layout::build;
use crate::levelling::{Counts, Pass};
use crate::work::WorkEntry;
use kinds::Total;
use shelves::Shelf;

// Levels bumps, then pits, width by width until nothing is left to level, and answers the number of
// rows.
pub(crate) fn split_widths<K: Total, S: Shelf<K>>(
    totals: &[K],
    work: &mut [WorkEntry<K>],
    shelf: &mut S,
) -> usize
    requires { Accepted K.kind (map K.columns totals.now) (length work.old) (length (S.slots shelf.old)) }
    ensures count { result ≡ length (pulses K.kind (map K.columns totals.now)) }
    ensures rows { S.slots shelf.new ≡ laid (pulses K.kind (map K.columns totals.now)) (S.slots shelf.old) }
    ensures outside { S.outside shelf.new ≡ S.outside shelf.old }
{
    let days = totals.len();
    let mut at = Counts {
        marks: build(totals, work),
        rows: 0,
    };
    for width in 1..=days {
        if at.marks == 0 {
            return at.rows;
        }
        let bumps = Pass::bumps(days, width);
        let pits = Pass::pits(days, width);
        let lowered = bumps.level_width(work, shelf, at);
        at = pits.level_width(work, shelf, lowered);
    }
    at.rows
}
