// What a byte is to a reader of texts.
ghost use Rattle.std.specs.Prelude.{◌≡◌};
ghost use Rattle.figures.specs.Bytes.{class_of};

// A digit carries its value.
#[derive(Clone, Copy)]
pub enum Class {
    Digit(u8),
    Minus,
    Comma,
    LineFeed,
    Other,
}

pub(crate) fn class_of(b: u8) -> Class
    ensures { result ≡ class_of b }
{
    match b as char {
        '0'..='9' => Class::Digit(b - b'0'),
        // a match of its own, so that a digit is known first
        mark => match mark {
            '-' => Class::Minus,
            ',' => Class::Comma,
            '\n' => Class::LineFeed,
            _ => Class::Other,
        },
    }
}
