// Whole numbers of one unit: cents and pieces.
ghost use Rattle.std.specs.Prelude.{◌≡◌, ℕ, true, ⊤};
ghost use Rattle.kinds.specs.Columns.{fits64};
ghost use Rattle.kinds.specs.declared.name.Name.{Name as Named};
ghost use Rattle.kinds.specs.declared.name.Name.TheVariants.{Cents as cents, Pieces as pieces};
ghost use Rattle.kinds.specs.Wholes.{whole, Sound, cents_bound, pieces_bound, cents_sound, pieces_sound};
ghost use Rattle.std.proofs.Common.{rules};

use crate::name::Name;
use crate::one_column::OneColumn;
use crate::total::Total;
use std::alloc::AllocError;
use std::marker::PhantomData;

// What is counted: the name of the column and its entry bound.
pub trait Unit: Copy {
    ghost BOUND: { ℕ };

    ghost NAME: { Named };

    const BOUND: u64;

    const NAME: Name;

    ghost sound: { Sound BOUND };
}

#[derive(Clone, Copy)]
pub struct CentsUnit;

impl Unit for CentsUnit {
    ghost BOUND = { cents_bound };

    ghost NAME = { cents };

    ghost sound = { cents_sound };

    const BOUND: u64 = 1_000_000_000_000;

    const NAME: Name = Name::Cents;
}

#[derive(Clone, Copy)]
pub struct PiecesUnit;

impl Unit for PiecesUnit {
    ghost BOUND = { pieces_bound };

    ghost NAME = { pieces };

    ghost sound = { pieces_sound };

    const BOUND: u64 = 1_000_000_000;

    const NAME: Name = Name::Pieces;
}

// A whole number of one unit, of 64 bits.
#[derive(Copy)]
#[derive_where(PartialEq, Eq, PartialOrd, Ord, Debug)]
pub struct Whole<U> {
    value: i64,
    unit: PhantomData<U>,
    ghost fits: { fits64 value ≡ true },
}

// By hand: none is derived for a generic struct with a ghost field.
impl<U: Copy> Clone for Whole<U> {
    ghost is_clone = { λ x y. y ≡ x };

    ghost is_infallible = { λ _. ⊤ };

    fn clone(&self) -> Result<Whole<U>, AllocError> {
        Ok(*self)
    }
}

pub type Cents = Whole<CentsUnit>;

pub type Pieces = Whole<PiecesUnit>;

impl<U: Unit> Whole<U> {
    // The total of one number.
    pub fn new(value: i64) -> Whole<U>
        ensures { result.value ≡ value }
    {
        Whole {
            value,
            unit: PhantomData,
        }
    }
}

impl<U: Unit> Total for Whole<U> {
    ghost kind = { whole U.BOUND U.NAME };

    ghost columns = { λ x. x.value };

    ghost lawful = { Prim.search rules };

    ghost held = { Prim.search rules };

    ghost ordered = { Prim.search rules };

    fn zero() -> Whole<U> {
        Whole::new(0)
    }

    fn may_enter(self) -> bool {
        self.value.unsigned_abs() <= U::BOUND
    }

    fn sum(self, other: Whole<U>) -> Option<Whole<U>> {
        Some(Whole::new(self.value.checked_add(other.value)?))
    }

    fn difference(self, other: Whole<U>) -> Option<Whole<U>> {
        Some(Whole::new(self.value.checked_sub(other.value)?))
    }

    fn column(self, number: u8) -> Option<i64> {
        (number == 1).then_some(self.value)
    }

    fn replace(self, number: u8, value: i64) -> Option<Whole<U>> {
        (number == 1).then_some(Whole::new(value))
    }

    fn name(number: u8) -> Option<Name> {
        (number == 1).then_some(U::NAME)
    }
}

impl<U: Unit> OneColumn for Whole<U> {
    ghost single = { Prim.search rules };
}
