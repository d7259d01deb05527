// The names that stand over the columns of our texts.
ghost use Rattle.std.specs.Prelude.{◌≡◌, Some, None};
ghost use Rattle.figures.specs.Headings.{letters, first, second, heading, heading_if, twins};

use kinds::{Name, Total};

#[derive(Clone, Copy, Debug, PartialEq, Eq)]
pub enum Heading {
    Day,
    Cents,
    Pieces,
    Pulse,
    Width,
    First,
    State,
    Refusal,
    Line,
    Byte,
}

impl Heading {
    // How the name is written.
    pub fn letters(self) -> &'static [u8]
        ensures { result.now ≡ letters self }
    {
        match self {
            Heading::Day => b"day",
            Heading::Cents => b"cents",
            Heading::Pieces => b"pieces",
            Heading::Pulse => b"pulse",
            Heading::Width => b"width",
            Heading::First => b"first",
            Heading::State => b"state",
            Heading::Refusal => b"refusal",
            Heading::Line => b"line",
            Heading::Byte => b"byte",
        }
    }
}

// What stands over a column of this name.
impl From<Name> for Heading {
    ghost from_gives = { λ x y. y ≡ heading x };

    fn from(name: Name) -> Heading {
        match name {
            Name::Cents => Heading::Cents,
            Name::Pieces => Heading::Pieces,
        }
    }
}

// The name of the kind's first column. Every kind has one.
pub fn first_column<K: Total>() -> Heading
    ensures { result ≡ heading (first K.Total.kind.arity K.Total.kind.names) }
{
    Heading::from(K::name(1).unwrap())
}

// The name of the kind's second column, if it has one.
pub fn second_column<K: Total>() -> Option<Heading>
    ensures { result ≡ heading_if (second K.Total.kind.arity K.Total.kind.names) }
{
    Some(Heading::from(K::name(2)?))
}

// Whether the kind's two columns have one name.
pub fn twin_names<K: Total>() -> bool
    ensures { result ≡ twins K.Total.kind.arity K.Total.kind.names }
{
    K::name(1) == K::name(2)
}
