// The record 5, -5, 5, -5 in cents over lent rows.
use histories::{Step, sheet_after};
use kinds::{Cents, Total};
use refusals::Refusal;
use sheets::{Sheet, Stop, WorkEntry};
use shelves::{Row, RowShelf};

fn cents(value: i64) -> Cents {
    Cents::new(value)
}

fn number(total: Result<Cents, Stop>) -> Option<i64> {
    total.ok()?.column(1)
}

// The number of marks changed, or 100 more than the number of the refusal.
fn code(answer: Result<usize, Stop>) -> usize {
    match answer {
        Ok(changed) => changed,
        Err(Stop::Refused(refusal)) => 100 + usize::from(refusal.number()),
        Err(Stop::Unreachable) => 200,
    }
}

#[test]
fn width_three_out(rt: HostRuntime) {
    let blank = Row {
        first: 0,
        width: 0,
        mark: 7,
        amount: cents(0),
    };
    let mut rows = [blank; 4];
    let totals = [cents(5), cents(-5), cents(5), cents(-5)];
    let entry: WorkEntry<Cents> = WorkEntry::new();
    let mut work = [entry; 6];
    let steps = [
        Step::Take {
            skipped: 0,
            days: 4,
            entries: 6,
        },
        Step::Remove {
            lowest: 0,
            highest: 4,
        },
        Step::Remove {
            lowest: 3,
            highest: 3,
        },
    ];
    let shelf = RowShelf::over(&mut rows);
    let mut sheet = sheet_after(shelf, &steps, &totals, &mut work);
    assert_eq!(rt; sheet.days(), 4);
    assert_eq!(rt; sheet.pulses(), 3);
    assert_eq!(rt; number(sheet.standing(1)), Some(5));
    assert_eq!(rt; number(sheet.standing(2)), Some(0));
    assert_eq!(rt; number(sheet.standing(3)), Some(10));
    assert_eq!(rt; number(sheet.standing(4)), Some(0));
    assert_eq!(rt; number(sheet.swing()), Some(30));
    let no_width = sheet.remove(0, 4);
    assert_eq!(rt; no_width, Err(Stop::Refused(Refusal::WidthsOutOfRange)));
    assert_eq!(rt; code(no_width), 105);
    assert_eq!(rt; code(sheet.restore_one(3)), 1);
    assert_eq!(rt; number(sheet.swing()), Some(40));
    let no_pulse = sheet.restore_one(4);
    assert_eq!(rt; no_pulse, Err(Stop::Refused(Refusal::NoSuchPulse)));
    assert_eq!(rt; code(no_pulse), 106);
}
