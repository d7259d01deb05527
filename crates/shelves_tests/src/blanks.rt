// Slots that hold no row.
use crate::few::Few;
use crate::plain::{Told, put, put_row, read, read_row};
use crate::row;
use kinds::{Cents, Pair, Total};
use shelves::NoSuchSlot;
use std::test::Fail;

// What the slot shows whose bytes 4 to 7 are these, and the others zero.
fn with_head(mark: u8, a: u8, b: u8, c: u8) -> Told<Cents> {
    let mut bytes = [0, 0, 0, 0, mark, a, b, c, 0, 0, 0, 0, 0, 0, 0, 0];
    read::<Cents>(&mut bytes, 0)
}

#[test]
fn another_mark_in_bytes(rt: HostRuntime) {
    assert_eq!(rt;
        with_head(0, 0, 0, 0),
        Ok(Some(row(0, 0, 0, Cents::new(0))))
    );
    assert_eq!(rt;
        with_head(1, 0, 0, 0),
        Ok(Some(row(0, 0, 1, Cents::new(0))))
    );
    assert_eq!(rt; with_head(2, 0, 0, 0), Ok(None));
    assert_eq!(rt; with_head(255, 0, 0, 0), Ok(None));
}

#[test]
fn a_filler_byte(rt: HostRuntime) {
    assert_eq!(rt; with_head(0, 1, 0, 0), Ok(None));
    assert_eq!(rt; with_head(0, 0, 255, 0), Ok(None));
    assert_eq!(rt; with_head(1, 0, 0, 128), Ok(None));
}

#[test]
fn another_mark_in_rows(rt: HostRuntime) -> Result<(), Fail> {
    let mut rows = [row(1, 2, 2, Cents::new(3)), row(4, 5, 1, Cents::new(6))];
    assert_eq!(rt; read_row(&mut rows, 0), Ok(None));
    assert_eq!(rt;
        read_row(&mut rows, 1),
        Ok(Some(row(4, 5, 1, Cents::new(6))))
    );
    put_row(&mut rows, 1, row(7, 8, 9, Cents::new(10)))?;
    assert_eq!(rt; read_row(&mut rows, 1), Ok(None));
    put_row(&mut rows, 0, row(1, 2, 0, Cents::new(3)))?;
    assert_eq!(rt;
        read_row(&mut rows, 0),
        Ok(Some(row(1, 2, 0, Cents::new(3))))
    );
    Ok(())
}

#[test]
fn another_mark_put_in_bytes(rt: HostRuntime) -> Result<(), Fail> {
    let mut bytes = [0u8; 16];
    put(&mut bytes, 0, row(7, 8, 9, Cents::new(10)))?;
    assert_eq!(rt; read::<Cents>(&mut bytes, 0), Ok(None));
    assert_eq!(rt; bytes, [7, 0, 8, 0, 9, 0, 0, 0, 10, 0, 0, 0, 0, 0, 0, 0]);
    Ok(())
}

// First day, width, mark and the two columns of a row.
type Numbers = (u16, u16, u8, Option<i64>, Option<i64>);

// What the slot of two columns shows that begin with these bytes, the others zero.
fn with_columns(first: [u8; 4], second: [u8; 4]) -> Result<Option<Numbers>, NoSuchSlot> {
    let [a, b, c, d] = first;
    let [e, f, g, h] = second;
    let mut bytes = [
        0, 0, 0, 0, 0, 0, 0, 0, a, b, c, d, 0, 0, 0, 0, e, f, g, h, 0, 0, 0, 0,
    ];
    let told = read::<Pair<Few, Few>>(&mut bytes, 0)?;
    Ok(told.map(|row| {
        let amount = row.amount;
        (
            row.first,
            row.width,
            row.mark,
            amount.column(1),
            amount.column(2),
        )
    }))
}

#[test]
fn columns_of_no_value(rt: HostRuntime) {
    let most = [64, 75, 76, 0];
    let more = [65, 75, 76, 0];
    let few = Ok(Some((0, 0, 0, Some(5_000_000), Some(5_000_000))));
    assert_eq!(rt; with_columns(most, most), few);
    assert_eq!(rt; with_columns(most, more), Ok(None));
    assert_eq!(rt; with_columns(more, most), Ok(None));
    assert_eq!(rt; with_columns(more, more), Ok(None));
}

#[test]
fn one_column_of_no_value(rt: HostRuntime) {
    let mut bytes = [0, 0, 0, 0, 0, 0, 0, 0, 65, 75, 76, 0, 0, 0, 0, 0];
    assert_eq!(rt; read::<Few>(&mut bytes, 0), Ok(None));
}
