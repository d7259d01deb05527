// The names of columns.
ghost use Rattle.std.specs.Prelude.{◌≡◌};
ghost use Rattle.kinds.specs.Columns.{column};
ghost use Rattle.kinds.specs.Kinds.{code, code_of};

use crate::total::Total;

#[derive(Clone, Copy, PartialEq, Eq, Debug)]
pub enum Name {
    Cents,
    Pieces,
}

// The code of a name: 1 cents, 2 pieces.
impl From<Name> for u8 {
    ghost from_gives = { λ x y. y ≡ code x };

    fn from(name: Name) -> u8 {
        match name {
            Name::Cents => 1,
            Name::Pieces => 2,
        }
    }
}

// The code of the name of a kind's column, 0 where there is no such column: the numbers by which
// names are known outside the code.
pub fn name_code<K: Total>(number: u8) -> u8
    ensures { result ≡ code_of (column K.kind.arity K.kind.names number) }
{
    K::name(number).map_or(0, u8::from)
}
