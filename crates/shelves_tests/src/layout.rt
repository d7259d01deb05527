// Rows in bytes that were written out by hand.
use crate::plain::{put, read};
use crate::{mobile, row};
use kinds::{Cents, Mobile};
use std::test::Fail;

// Width 3 from day 258 on, out, -5 cents.
const PAPER: [u8; 16] = [
    2, 1, 3, 0, 1, 0, 0, 0, 251, 255, 255, 255, 255, 255, 255, 255,
];

// Width 1,000 from day 1 on, in, 1,000,000,000,000 cents and -2 pieces.
const MOBILE: [u8; 24] = [
    1, 0, 232, 3, 0, 0, 0, 0, 0, 16, 165, 212, 232, 0, 0, 0, 254, 255, 255, 255, 255, 255, 255, 255,
];

// Day and width 65,535, in, the least number of 64 bits.
const LEAST: [u8; 16] = [255, 255, 255, 255, 0, 0, 0, 0, 0, 0, 0, 0, 0, 0, 0, 128];

// Day and width 0, out, the greatest.
const MOST: [u8; 16] = [
    0, 0, 0, 0, 1, 0, 0, 0, 255, 255, 255, 255, 255, 255, 255, 127,
];

#[test]
fn one_column_is_read(rt: HostRuntime) {
    let mut bytes = PAPER;
    assert_eq!(rt;
        read::<Cents>(&mut bytes, 0),
        Ok(Some(row(258, 3, 1, Cents::new(-5))))
    );
}

#[test]
fn two_columns_are_read(rt: HostRuntime) {
    let mut bytes = MOBILE;
    let row = Ok(Some(row(1, 1000, 0, mobile(1_000_000_000_000, -2))));
    assert_eq!(rt; read::<Mobile>(&mut bytes, 0), row);
}

#[test]
fn one_column_is_written(rt: HostRuntime) -> Result<(), Fail> {
    let mut bytes = [7u8; 16];
    put(&mut bytes, 0, row(258, 3, 1, Cents::new(-5)))?;
    assert_eq!(rt; bytes, PAPER);
    Ok(())
}

#[test]
fn two_columns_are_written(rt: HostRuntime) -> Result<(), Fail> {
    let mut bytes = [7u8; 24];
    put(
        &mut bytes,
        0,
        row(1, 1000, 0, mobile(1_000_000_000_000, -2)),
    )?;
    assert_eq!(rt; bytes, MOBILE);
    Ok(())
}

#[test]
fn the_least_number(rt: HostRuntime) -> Result<(), Fail> {
    let mut bytes = [7u8; 16];
    put(&mut bytes, 0, row(65535, 65535, 0, Cents::new(i64::MIN)))?;
    assert_eq!(rt; bytes, LEAST);
    let row = Ok(Some(row(65535, 65535, 0, Cents::new(i64::MIN))));
    assert_eq!(rt; read::<Cents>(&mut bytes, 0), row);
    Ok(())
}

#[test]
fn the_greatest_number(rt: HostRuntime) -> Result<(), Fail> {
    let mut bytes = [7u8; 16];
    put(&mut bytes, 0, row(0, 0, 1, Cents::new(i64::MAX)))?;
    assert_eq!(rt; bytes, MOST);
    assert_eq!(rt;
        read::<Cents>(&mut bytes, 0),
        Ok(Some(row(0, 0, 1, Cents::new(i64::MAX))))
    );
    Ok(())
}
