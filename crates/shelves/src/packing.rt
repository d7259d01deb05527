// A row in the bytes of its slot: first day in two bytes, width in two, mark in one, three zero
// bytes, then each column in eight, two's complement, all lowest byte first.
ghost use Rattle.std.specs.Prelude.{◌≡◌, ◌*◌, ◌^◌, ◌<◌, ◌≤◌, ◌&&◌, [], ◌∷◌, length, Some, nat_le, slice_index};
ghost use Rattle.kinds.specs.Columns.{column};
ghost use Rattle.kinds.specs.Kinds.{Gives};
ghost use Rattle.shelves.specs.Bytes.{bytes_of_signed, clear, count, little, packed, packed_columns, packed_head, signed, size, stored, unpacked};
ghost use Rattle.shelves.specs.Slots.{Holds, shown};

use crate::row::{Mark, Row};
use kinds::Total;

// How many bytes a slot of the kind has.
pub fn slot_size<K: Total>() -> usize
    ensures { result ≡ size K.kind.arity }
{
    if K::name(2).is_some() { 24 } else { 16 }
}

// The first eight bytes.
fn head(first: u16, width: u16, mark: u8) -> [u8; 8]
    ensures bytes { result ≡ packed_head first width mark }
    ensures fits { (first < 2 ^ 16) × (width < 2 ^ 16) }
{
    let [first_low, first_high] = first.to_le_bytes();
    let [width_low, width_high] = width.to_le_bytes();
    [first_low, first_high, width_low, width_high, mark, 0, 0, 0]
}

// Two bytes as one number.
fn number(low: u8, high: u8) -> u16
    ensures { result ≡ little (low ∷ high ∷ []) }
{
    u16::from_le_bytes([low, high])
}

// Whether the mark is one and the filler is zero.
fn is_row(slot: &[u8]) -> bool
    requires { 8 ≤ length slot.now }
    ensures { result ≡ (nat_le (slice_index slot.now 4) 1 && clear slot.now) }
{
    Mark::try_from(slot[4]).is_ok() && slot[5..8] == [0, 0, 0]
}

// The column in eight bytes.
fn column_in(bytes: &[u8]) -> i64
    requires { length bytes.now ≡ 8 }
    ensures { result ≡ signed bytes.now }
{
    let mut eight = [0u8; 8];
    eight.copy_from_slice(bytes);
    i64::from_le_bytes(eight)
}

// Writes one column over eight bytes.
fn write_column(bytes: &mut [u8], value: i64)
    requires { length bytes.old ≡ 8 }
    ensures { bytes.new ≡ bytes_of_signed value }
{
    bytes.copy_from_slice(&value.to_le_bytes());
}

// A column of an amount that has it.
fn column_of<K: Total>(amount: K, number: u8) -> i64
    requires { (1 ≤ number) × (number ≤ count K.kind.arity) }
    ensures { column K.kind.arity (K.columns amount) number ≡ Some result }
{
    amount.column(number).unwrap_or(0)
}

// Writes every column, one after the other.
fn write_columns<K: Total>(bytes: &mut [u8], amount: K)
    requires { length bytes.old ≡ 8 * count K.kind.arity }
    ensures { bytes.new ≡ packed_columns K.kind.arity (K.columns amount) }
{
    write_column(&mut bytes[0..8], column_of(amount, 1));
    if bytes.len() > 8 {
        write_column(&mut bytes[8..16], column_of(amount, 2));
    }
}

// Writes a row over the bytes of a slot, which then show it.
pub(crate) fn pack<K: Total>(slot: &mut [u8], row: &Row<K>)
    requires { length slot.old ≡ size K.kind.arity }
    ensures bytes { slot.new ≡ packed K.kind K.columns row.now }
    ensures shows { unpacked K.kind (packed K.kind K.columns row.now) ≡ shown K.kind K.columns row.now }
{
    slot[0..8].copy_from_slice(&head(row.first, row.width, row.mark));
    write_columns(&mut slot[8..], row.amount);
}

// The amount in a slot, or nothing where the kind has no such value.
fn amount_in<K: Total>(slot: &[u8]) -> Option<K>
    requires { length slot.now ≡ size K.kind.arity }
    ensures { Gives K.kind K.columns (stored K.kind.arity slot.now) result }
{
    let amount = K::zero().replace(1, column_in(&slot[8..16]))?;
    if slot.len() > 16 {
        amount.replace(2, column_in(&slot[16..24]))
    } else {
        Some(amount)
    }
}

// The row in the bytes of a slot, or nothing where they are blank.
pub(crate) fn unpack<K: Total>(slot: &[u8]) -> Option<Row<K>>
    requires { length slot.now ≡ size K.kind.arity }
    ensures { Holds K.kind K.columns (unpacked K.kind slot.now) result }
{
    if !is_row(slot) {
        return None;
    }
    let amount = amount_in(slot)?;
    Some(Row {
        first: number(slot[0], slot[1]),
        width: number(slot[2], slot[3]),
        mark: slot[4],
        amount,
    })
}
