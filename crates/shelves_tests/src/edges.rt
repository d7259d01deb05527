// Capacities, slots that there are not, stretches at the ends of the days.
use crate::plain::{Told, capacity, put, put_row, read, read_row};
use crate::row;
use kinds::{Cents, Mobile};
use shelves::{ByteShelf, Mark, NoSuchSlot, Row, Stretch, put_then_read};
use std::test::Fail;

#[test]
fn whole_slots_count(rt: HostRuntime) {
    assert_eq!(rt; capacity::<Cents>(&mut [0u8; 0]), 0);
    assert_eq!(rt; capacity::<Cents>(&mut [0u8; 15]), 0);
    assert_eq!(rt; capacity::<Cents>(&mut [0u8; 16]), 1);
    assert_eq!(rt; capacity::<Cents>(&mut [0u8; 17]), 1);
    assert_eq!(rt; capacity::<Mobile>(&mut [0u8; 23]), 0);
    assert_eq!(rt; capacity::<Mobile>(&mut [0u8; 24]), 1);
    assert_eq!(rt; capacity::<Mobile>(&mut [0u8; 25]), 1);
}

#[test]
fn a_byte_past_the_slots_stays(rt: HostRuntime) -> Result<(), Fail> {
    let mut bytes = [9u8; 17];
    put(&mut bytes, 0, row(0, 0, 0, Cents::new(0)))?;
    assert_eq!(rt;
        put(&mut bytes, 1, row(1, 1, 1, Cents::new(1))),
        Err(NoSuchSlot)
    );
    assert_eq!(rt; bytes, [0, 0, 0, 0, 0, 0, 0, 0, 0, 0, 0, 0, 0, 0, 0, 0, 9]);
    Ok(())
}

#[test]
fn one_byte_short_is_no_slot(rt: HostRuntime) {
    let mut bytes = [9u8; 15];
    assert_eq!(rt;
        put(&mut bytes, 0, row(0, 0, 0, Cents::new(0))),
        Err(NoSuchSlot)
    );
    assert_eq!(rt; read::<Cents>(&mut bytes, 0), Err(NoSuchSlot));
    assert_eq!(rt; bytes, [9u8; 15]);
}

#[test]
fn no_rows_no_slots(rt: HostRuntime) {
    let mut rows: [Row<Cents>; 0] = [];
    assert_eq!(rt; read_row(&mut rows, 0), Err(NoSuchSlot));
    assert_eq!(rt;
        put_row(&mut rows, 0, row(2, 2, 1, Cents::new(2))),
        Err(NoSuchSlot)
    );
}

// Puts a row of cents and reads it back.
fn put_back(bytes: &mut [u8], slot: usize, row: Row<Cents>) -> Told<Cents> {
    let mut shelf = ByteShelf::over(bytes);
    put_then_read(&mut shelf, slot, &row)
}

#[test]
fn a_put_leaves_the_others(rt: HostRuntime) -> Result<(), Fail> {
    let mut bytes = [0u8; 48];
    put(&mut bytes, 0, row(1, 1, 0, Cents::new(1)))?;
    put(&mut bytes, 2, row(3, 3, 1, Cents::new(3)))?;
    let back = put_back(&mut bytes, 1, row(2, 2, 1, Cents::new(-2)));
    assert_eq!(rt; back, Ok(Some(row(2, 2, 1, Cents::new(-2)))));
    assert_eq!(rt;
        read::<Cents>(&mut bytes, 0),
        Ok(Some(row(1, 1, 0, Cents::new(1))))
    );
    assert_eq!(rt;
        read::<Cents>(&mut bytes, 2),
        Ok(Some(row(3, 3, 1, Cents::new(3))))
    );
    assert_eq!(rt; read::<Cents>(&mut bytes, 3), Err(NoSuchSlot));
    Ok(())
}

fn days(first: u16, width: u16) -> Option<(u16, u16)> {
    let Stretch { first, width, .. } = row(first, width, 0, Cents::new(0)).stretch()?;
    Some((first, width))
}

#[test]
fn stretches_end_by_day_1000(rt: HostRuntime) {
    assert_eq!(rt; days(1, 1000), Some((1, 1000)));
    assert_eq!(rt; days(1000, 1), Some((1000, 1)));
    assert_eq!(rt; days(0, 1), None);
    assert_eq!(rt; days(1, 0), None);
    assert_eq!(rt; days(1, 1001), None);
    assert_eq!(rt; days(1000, 2), None);
    assert_eq!(rt; days(65535, 65535), None);
}

#[test]
fn marks_have_numbers(rt: HostRuntime) {
    assert_eq!(rt; u8::from(Mark::In), 0);
    assert_eq!(rt; u8::from(Mark::Out), 1);
    assert_eq!(rt; row(1, 1, 0, Cents::new(0)).state(), Some(Mark::In));
    assert_eq!(rt; row(1, 1, 1, Cents::new(0)).state(), Some(Mark::Out));
    assert_eq!(rt; row(1, 1, 2, Cents::new(0)).state(), None);
}
