// A shelf over lent bytes.
ghost use Rattle.std.specs.Prelude.{◌≡◌, ◌*◌, ◌/◌, ◌^◌, ◌<◌, ◌≤◌, length, slice_set};
ghost use Rattle.shelves.specs.Bytes.{over_bytes, overwritten, packed, past, shown_bytes, size, whole};
ghost use Rattle.shelves.specs.Slots.{shown, Put, Read};

use crate::packing::{pack, slot_size, unpack};
use crate::row::{NoSuchSlot, Row};
use crate::shelf::{OverBytes, Shelf};
use kinds::Total;
use std::marker::PhantomData;

// As many slots as whole slots fit.
#[derive(Drop)]
pub struct ByteShelf<'a, K> {
    bytes: &'a mut [u8],
    kind: PhantomData<K>,
}

// How many slots fit whole.
fn slots_in(len: usize, size: usize) -> usize
    requires { 1 ≤ size }
    ensures { result ≡ len / size }
{
    len / size
}

// Where a slot begins. By arithmetic: the library's chunks step over all slots before it.
fn start_of(slot: usize, size: usize) -> usize
    requires { slot * size < 2 ^ 64 }
    ensures { result ≡ slot * size }
{
    slot * size
}

// How many slots lent bytes have.
fn slot_count<K: Total>(bytes: &[u8]) -> usize
    ensures { result ≡ length (shown_bytes K.kind bytes.now) }
{
    slots_in(bytes.len(), slot_size::<K>())
}

// Writes a row over the bytes of its slot.
fn put_packed<K: Total>(bytes: &mut [u8], slot: usize, row: &Row<K>) -> Result<(), NoSuchSlot>
    ensures answer { Put (length (shown_bytes K.kind bytes.old)) slot bytes.old bytes.new result }
    ensures slots { shown_bytes K.kind bytes.new ≡ slice_set (shown_bytes K.kind bytes.old) slot (shown K.kind K.columns row.now) }
    ensures past { past K.kind bytes.new ≡ past K.kind bytes.old }
    ensures bytes { slot < whole K.kind.arity bytes.old → bytes.new ≡ overwritten bytes.old (slot * size K.kind.arity) (packed K.kind K.columns row.now) }
{
    let size = slot_size::<K>();
    if slot < slots_in(bytes.len(), size) {
        let at = start_of(slot, size);
        pack(&mut bytes[at..at + size], row);
        Ok(())
    } else {
        Err(NoSuchSlot)
    }
}

// The row in the bytes of a slot.
fn read_packed<K: Total>(bytes: &[u8], slot: usize) -> Result<Option<Row<K>>, NoSuchSlot>
    ensures { Read K.kind K.columns (shown_bytes K.kind bytes.now) slot result }
{
    let size = slot_size::<K>();
    if slot < slots_in(bytes.len(), size) {
        let at = start_of(slot, size);
        Ok(unpack::<K>(&bytes[at..at + size]))
    } else {
        Err(NoSuchSlot)
    }
}

impl<'a, K: Total> Shelf<K> for ByteShelf<'a, K> {
    ghost slots = { λ s. shown_bytes K.kind s.bytes.now };

    ghost outside = { λ s. over_bytes K.kind s.bytes };

    fn capacity(&self) -> usize {
        let bytes = &*self.bytes;
        slot_count::<K>(bytes)
    }

    // The clauses of every shelf, and beside them the bytes that change.
    fn put(&mut self, slot: usize, row: &Row<K>) -> Result<(), NoSuchSlot>
        ensures answer { Put (length (shown_bytes K.kind self.old.bytes.now)) slot self.old self.new result }
        ensures slots { shown_bytes K.kind self.new.bytes.now ≡ slice_set (shown_bytes K.kind self.old.bytes.now) slot (shown K.kind K.columns row.now) }
        ensures outside { over_bytes K.kind self.new.bytes ≡ over_bytes K.kind self.old.bytes }
        ensures bytes { slot < whole K.kind.arity self.old.bytes.now → self.new.bytes.now ≡ overwritten self.old.bytes.now (slot * size K.kind.arity) (packed K.kind K.columns row.now) }
    {
        put_packed(self.bytes, slot, row)
    }

    fn read(&self, slot: usize) -> Result<Option<Row<K>>, NoSuchSlot> {
        let bytes = &*self.bytes;
        read_packed(bytes, slot)
    }
}

impl<'a, K: Total> ByteShelf<'a, K> {
    // A shelf over lent bytes; those past the whole slots never change.
    pub fn over(bytes: &'a mut [u8]) -> ByteShelf<'a, K>
        ensures slots { ⟦<ByteShelf<'a, K> as Shelf<K>>⟧.slots result ≡ shown_bytes K.kind bytes.old }
        ensures outside { ⟦<ByteShelf<'a, K> as Shelf<K>>⟧.outside result ≡ over_bytes K.kind bytes.entry }
        ensures bytes { result.bytes ≡ bytes.entry }
    {
        ByteShelf {
            bytes,
            kind: PhantomData,
        }
    }
}

impl<'a, K: Total> OverBytes<'a, K> for ByteShelf<'a, K> {
    fn over(bytes: &'a mut [u8]) -> ByteShelf<'a, K>
        ensures slots { shown_bytes K.kind result.bytes.now ≡ shown_bytes K.kind bytes.old }
        ensures outside { over_bytes K.kind result.bytes ≡ over_bytes K.kind bytes.entry }
        ensures bytes { result.bytes ≡ bytes.entry }
    {
        ByteShelf::over(bytes)
    }
}
