// Fields of lines, and where lines and fields end.
ghost use Rattle.std.specs.Prelude.{◌≡◌, ◌+◌, ◌^◌, ◌<◌, ◌==◌, length, position};
ghost use Rattle.std.specs.Option.{option_map};
ghost use Rattle.reading.specs.Parts.{fields, under, start_under, field_under, Cut};
ghost use Rattle.reading.specs.Places.{placed_under};

use crate::walk::Fields;

pub const COMMA: u8 = b',';

pub const LINE_FEED: u8 = b'\n';

// The place of the first byte that is `stop`, if there is one.
fn first_place(bytes: &[u8], stop: u8) -> Option<usize>
    ensures { result ≡ position (λ b. b == stop) bytes.now }
{
    bytes.iter().position(|b| *b == stop)
}

// The first part of some bytes, up to the first `stop`, and what follows that `stop`, if there is one.
pub(crate) fn cut(bytes: &[u8], stop: u8) -> (&[u8], Option<&[u8]>)
    ensures { Cut stop bytes.now result.0.now (option_map (λ x. x.now) result.1) }
{
    match first_place(bytes, stop) {
        Some(end) => (&bytes[..end], Some(&bytes[end + 1..])),
        None => (bytes, None),
    }
}

// The field of the values line under a name of the names line, by the name's first place: a part
// of the values line. Nothing where there is none, or where either line holds a line feed.
pub fn field<'n, 'v>(names: &'n [u8], values: &'v [u8], name: &[u8]) -> Option<&'v [u8]>
    ensures { option_map (λ x. x.now) result ≡ field_under names.now values.now name.now }
{
    if names.contains(&LINE_FEED) || values.contains(&LINE_FEED) {
        return None;
    }
    field_of_line(names, values, name)
}

pub(crate) fn field_of_line<'v>(names: &[u8], values: &'v [u8], name: &[u8]) -> Option<&'v [u8]>
    ensures { option_map (λ x. x.now) result ≡ under (fields names.now) (fields values.now) name.now }
{
    find_under(names, values, name).map(|(_, field)| field)
}

// That field, and the byte of the line at which it starts.
pub(crate) fn find_under<'v>(
    names: &[u8],
    values: &'v [u8],
    name: &[u8],
) -> Option<(usize, &'v [u8])>
    ensures { option_map (λ p. (p.0, p.1.now)) result ≡ placed_under 0 (fields names.now) (fields values.now) name.now }
{
    for ((_, this), found) in Fields::of(names).zip(Fields::of(values)) {
        if this == name {
            return Some(found);
        }
    }
    None
}

// The byte at which that field starts, where the values line starts at byte `at` of the text.
// 0 for none, as its definition has it.
pub(crate) fn start_under(at: usize, names: &[u8], values: &[u8], name: &[u8]) -> usize
    requires { at + length values.now < 2 ^ 63 }
    ensures { result ≡ start_under at (fields names.now) (fields values.now) name.now }
{
    match find_under(names, values, name) {
        Some((start, _)) => at + start,
        None => 0,
    }
}

pub(crate) fn count_fields(line: &[u8]) -> usize
    ensures { result ≡ length (fields line.now) }
{
    line.iter().filter(|b| **b == COMMA).count() + 1
}
