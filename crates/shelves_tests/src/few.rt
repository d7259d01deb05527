// A kind of few values, so that there are columns of which it has none.
ghost use Rattle.std.specs.Prelude.{◌≡◌, true, nat_le, unsigned_abs};
ghost use Rattle.kinds.specs.Kinds.{Gives};
ghost use Rattle.shelves_tests.specs.Few.{few};
ghost use Rattle.std.proofs.Common.{rules};

use kinds::{Name, OneColumn, Total};

#[derive(Clone, Copy, PartialEq, Eq, PartialOrd, Ord, Debug)]
pub struct Few {
    value: i64,
    ghost kept: { nat_le (unsigned_abs value) 5000000 ≡ true },
}

// The number, or nothing where it is out of range.
fn number(value: i64) -> Option<Few>
    ensures { Gives few (λ x. x.value) value result }
{
    if (-5_000_000..=5_000_000).contains(&value) {
        Some(Few { value })
    } else {
        None
    }
}

impl Total for Few {
    ghost kind = { few };

    ghost columns = { λ x. x.value };

    ghost lawful = { Prim.search rules };

    ghost held = { Prim.search rules };

    ghost ordered = { Prim.search rules };

    fn zero() -> Few {
        Few { value: 0 }
    }

    fn may_enter(self) -> bool {
        (-1..=1).contains(&self.value)
    }

    fn sum(self, other: Few) -> Option<Few> {
        number(self.value + other.value)
    }

    fn difference(self, other: Few) -> Option<Few> {
        number(self.value - other.value)
    }

    fn column(self, number: u8) -> Option<i64> {
        (number == 1).then_some(self.value)
    }

    fn replace(self, column: u8, value: i64) -> Option<Few> {
        if column == 1 { number(value) } else { None }
    }

    fn name(number: u8) -> Option<Name> {
        (number == 1).then_some(Name::Cents)
    }
}

impl OneColumn for Few {
    ghost single = { Prim.search rules };
}
