// What a kind of total is to everything above.
ghost use Rattle.std.specs.Prelude.{◌≡◌, true};
ghost use Rattle.kinds.specs.Columns.{nought, plus, minus, within, column, replaced};
ghost use Rattle.kinds.specs.Kinds.{Kind, Of, Lawful, Gives, GivesIf, Compared};

use crate::name::Name;

// A daily total: one or two columns, each a whole number. Two totals are equal when they have the
// same columns, and one is less than the other by the kind's order.
pub trait Total: Copy + Ord {
    // what all values of the kind share
    ghost kind: { Kind };

    ghost columns: { Self → Of kind };

    // The total whose columns are all 0.
    fn zero() -> Self
        ensures { columns result ≡ nought kind.arity };

    // Whether each column's absolute value is at most its bound.
    fn may_enter(self) -> bool
        ensures { result ≡ within kind.arity kind.bound (columns self) };

    // The sum column by column, or nothing where the kind has no such value.
    fn sum(self, other: Self) -> Option<Self>
        ensures { Gives kind columns (plus kind.arity (columns self) (columns other)) result };

    // This total less the other, column by column, or nothing where the kind has no such value.
    fn difference(self, other: Self) -> Option<Self>
        ensures { Gives kind columns (minus kind.arity (columns self) (columns other)) result };

    // Column number 1 or 2, or nothing where there is no such column.
    fn column(self, number: u8) -> Option<i64>
        ensures { result ≡ column kind.arity (columns self) number };

    // This total with another value in one column, or nothing where there is no such column or value.
    fn replace(self, number: u8, value: i64) -> Option<Self>
        ensures { GivesIf kind columns (replaced kind.arity (columns self) number value) result };

    // The name of column number 1 or 2, or nothing where there is no such column.
    fn name(number: u8) -> Option<Name>
        ensures { result ≡ column kind.arity kind.names number };

    ghost lawful: { Lawful kind };

    ghost held: { (x : Self) → kind.has (columns x) ≡ true };

    // how one total stands to another, in the kind's order
    ghost ordered: { (x y : Self) → Compared kind.below (columns x) (columns y) (Self.Ord.cmp x y) };
}
