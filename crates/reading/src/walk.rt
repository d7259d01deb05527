// A walk over the fields of a line.
ghost use Rattle.std.specs.Prelude.{◌≡◌, ◌≤◌, ◌+◌, length};
ghost use Rattle.std.specs.Option.{option_map};
ghost use Rattle.reading.specs.Parts.{fields, rest_length};
ghost use Rattle.reading.specs.Places.{placed, places_left};

use crate::fields::{COMMA, cut};

// The fields that are left of a line, if any, each with the byte of the line at which it starts.
#[derive(Drop)]
pub(crate) struct Fields<'t> {
    left: Option<&'t [u8]>,
    length: usize,
    ghost within: { rest_length (option_map (λ x. x.now) left) ≤ length + 1 },
}

impl<'t> Fields<'t> {
    pub(crate) fn of(line: &'t [u8]) -> Fields<'t>
        ensures { places_left (option_map (λ x. x.now) result.left) result.length ≡ placed 0 (fields line.now) }
    {
        Fields {
            left: Some(line),
            length: line.len(),
        }
    }
}

impl<'t> Iterator for Fields<'t> {
    type Item = (usize, &'t [u8]);

    ghost use Rattle.std.specs.Iterator.{YieldsFirstBy, item_count};
    ghost use Rattle.std.specs.Option.{option_map};
    ghost use Rattle.reading.specs.Places.{places_left};

    ghost next_gives = { YieldsFirstBy (λ p. (p.0, p.1.now)) (λ s. places_left (option_map (λ x. x.now) s.left) s.length) };

    ghost remaining = { item_count (λ s. places_left (option_map (λ x. x.now) s.left) s.length) };

    fn next(&mut self) -> Option<(usize, &'t [u8])> {
        let left = self.left?;
        let (field, more) = cut(left, COMMA);
        self.left = more;
        Some((self.length - left.len(), field))
    }
}
