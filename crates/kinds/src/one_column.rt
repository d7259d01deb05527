// Totals of one column.
ghost use Rattle.std.specs.Prelude.{◌≡◌};
ghost use Rattle.kinds.specs.Columns.{one};

use crate::total::Total;

pub trait OneColumn: Total {
    ghost single: { Self.Total.kind.arity ≡ one };
}
