ghost use Rattle.std.specs.Prelude.{◌+◌, ◌≤◌};

// A stretch of days: a first day and a width, both at least 1, that ends no later than day 1,000.
#[derive(Clone, Copy, PartialEq, Eq, Debug)]
pub struct Stretch {
    pub first: u16,
    pub width: u16,
    ghost begins: { 1 ≤ first },
    ghost wide: { 1 ≤ width },
    ghost ends: { first + width ≤ 1001 },
}
