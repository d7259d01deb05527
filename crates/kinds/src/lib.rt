// Kinds of total: the interface, the kinds cents, pieces and pairs of one-column kinds, and what
// records of every kind share.
#![tactic(auto)]

mod name;
mod one_column;
mod pair;
mod record;
mod total;
mod whole;

pub use name::{Name, name_code};
pub use one_column::OneColumn;
pub use pair::Pair;
pub use record::{MOST_DAYS, first_barred};
pub use total::Total;
pub use whole::{Cents, CentsUnit, Pieces, PiecesUnit, Unit, Whole};

// A total of a paper offer.
pub type Paper = Cents;

// A total of a mobile offer.
pub type Mobile = Pair<Cents, Pieces>;
