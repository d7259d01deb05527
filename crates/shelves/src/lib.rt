// Shelves: rows of pulses kept in slots, over lent rows or lent bytes.
#![tactic(auto)]

mod byte_shelf;
mod laws;
mod packing;
mod row;
mod row_shelf;
mod shelf;
mod stretch;

pub use byte_shelf::ByteShelf;
pub use laws::put_then_read;
pub use packing::slot_size;
pub use row::{Mark, NoMark, NoSuchSlot, Row};
pub use row_shelf::RowShelf;
pub use shelf::{OverBytes, OverRows, Shelf};
pub use stretch::Stretch;
