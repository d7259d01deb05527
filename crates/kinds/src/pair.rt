// A pair of two one-column totals, ordered by the first, then by the second.
ghost use Rattle.kinds.specs.Pairs.{only, pair, has_in};
ghost use Rattle.kinds.specs.PairsLemmas.{pair_lawful, pair_compared};
ghost use Rattle.std.specs.Prelude.{◌≡◌, true};
ghost use Rattle.std.proofs.Common.{ap, ◌∙◌, arith};
ghost use Rattle.kinds.specs.Singles.{alone_only};

use crate::name::Name;
use crate::one_column::OneColumn;
use crate::total::Total;

#[derive(Clone, Copy, PartialEq, Eq, PartialOrd, Ord, Debug)]
pub struct Pair<A, B> {
    pub first: A,
    pub second: B,
}

impl<A: OneColumn, B: OneColumn> Total for Pair<A, B> {
    ghost kind = { pair A.Total.kind B.Total.kind };

    ghost columns = { λ x. (only A.Total.kind.arity (A.Total.columns x.first), only B.Total.kind.arity (B.Total.columns x.second)) };

    ghost lawful = { pair_lawful A.Total.kind B.Total.kind A.OneColumn.single B.OneColumn.single A.Total.lawful B.Total.lawful };

    ghost held = { λ x.
        let A' = A.Total.kind in
        let B' = B.Total.kind in
        let a : has_in A' (only A'.arity (A.Total.columns x.first)) ≡ true =
        ap A'.has (alone_only A'.arity A.OneColumn.single (A.Total.columns x.first)) ∙ A.Total.held x.first in
        let b : has_in B' (only B'.arity (B.Total.columns x.second)) ≡ true =
        ap B'.has (alone_only B'.arity B.OneColumn.single (B.Total.columns x.second)) ∙ B.Total.held x.second in
        Prim.grind arith };

    ghost ordered = { λ x y. pair_compared A.Total.kind B.Total.kind A.OneColumn.single B.OneColumn.single A.Total.lawful _ _ _ _ _ _ (A.Total.ordered x.first y.first) (B.Total.ordered x.second y.second) };

    #[tactic(auto, using(crate::specs::Singles::only_nought))]
    fn zero() -> Pair<A, B> {
        Pair {
            first: A::zero(),
            second: B::zero(),
        }
    }

    #[tactic(auto, using(crate::specs::Singles::only_within))]
    fn may_enter(self) -> bool {
        self.first.may_enter() && self.second.may_enter()
    }

    #[tactic(auto, using(crate::specs::Singles::gives_number, crate::specs::Singles::only_plus))]
    fn sum(self, other: Pair<A, B>) -> Option<Pair<A, B>> {
        Some(Pair {
            first: self.first.sum(other.first)?,
            second: self.second.sum(other.second)?,
        })
    }

    #[tactic(auto, using(crate::specs::Singles::gives_number, crate::specs::Singles::only_minus))]
    fn difference(self, other: Pair<A, B>) -> Option<Pair<A, B>> {
        Some(Pair {
            first: self.first.difference(other.first)?,
            second: self.second.difference(other.second)?,
        })
    }

    #[tactic(auto, using(crate::specs::Singles::only_column))]
    fn column(self, number: u8) -> Option<i64> {
        match number {
            1 => self.first.column(1),
            2 => self.second.column(1),
            _ => None,
        }
    }

    #[tactic(auto, using(crate::specs::Singles::gives_number_if))]
    fn replace(self, number: u8, value: i64) -> Option<Pair<A, B>> {
        match number {
            1 => Some(Pair {
                first: self.first.replace(1, value)?,
                ..self
            }),
            2 => Some(Pair {
                second: self.second.replace(1, value)?,
                ..self
            }),
            _ => None,
        }
    }

    #[tactic(auto, using(crate::specs::Singles::only_column))]
    fn name(number: u8) -> Option<Name> {
        match number {
            1 => A::name(1),
            2 => B::name(1),
            _ => None,
        }
    }
}
