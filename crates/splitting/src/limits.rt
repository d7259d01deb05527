// Whether a record is refused, and by which number.
ghost use Rattle.std.specs.Prelude.{map, MatchResult};
ghost use Rattle.splitting.specs.Records.{Accepted, BarredDay, Lowest};

use kinds::{MOST_DAYS, Total, first_barred};
use refusals::Refusal;

// The first day whose total may not be entered, as the law of refusals names it.
#[tactic(auto, using(crate::proofs::Entered::barred_day))]
fn barred_day<K: Total>(totals: &[K]) -> Option<usize>
    ensures { BarredDay K.kind (map K.columns totals.now) result }
{
    first_barred(totals)
}

// Refuses a record by the lowest number of the table whose condition it meets.
pub(crate) fn admit<K: Total>(totals: &[K], entries: usize, capacity: usize) -> Result<(), Refusal>
    ensures { MatchResult result (λ _. Accepted K.kind (map K.columns totals.now) entries capacity) (λ refusal. Lowest K.kind (map K.columns totals.now) entries capacity refusal) }
{
    let days = totals.len();
    if days > MOST_DAYS {
        return Err(Refusal::TooManyDays);
    }
    if let Some(day) = barred_day(totals) {
        return Err(Refusal::MayNotEnter { day });
    }
    if entries < days + 2 {
        return Err(Refusal::WorkTooShort);
    }
    if capacity < days {
        return Err(Refusal::ShelfTooSmall);
    }
    Ok(())
}
