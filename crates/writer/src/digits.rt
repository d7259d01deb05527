// Decimal numbers into a buffer, and how many bytes they take.
ghost use Rattle.std.specs.Prelude.{◌≡◌, ◌+◌, ◌≤◌, length, decimal};
ghost use Rattle.std.specs.Fmt.{signed_decimal};
ghost use Rattle.writer.specs.Written.{pasted};

use crate::bytes::put_byte;
use itoa::write_digits;

const MINUS: u8 = b'-';

// How many digits a number has. The lengths that most numbers have are told by their bounds alone.
#[tactic(auto, using(crate::proofs::DecimalFacts::digit_counts))]
pub(crate) fn count_digits(number: u64) -> usize
    ensures count { result ≡ length (decimal number) }
    ensures few { result ≤ 20 }
{
    match number {
        0..=9 => 1,
        10..=99 => 2,
        100..=999 => 3,
        1000..=9999 => 4,
        _ => number.ilog10() as usize + 1,
    }
}

// How many bytes a whole number takes, with its minus.
pub(crate) fn count_signed(number: i64) -> usize
    ensures { result ≡ length (signed_decimal number) }
{
    let digits = count_digits(number.unsigned_abs());
    if number < 0 { digits + 1 } else { digits }
}

// Writes the digits of a number, and answers the place behind them.
pub(crate) fn put_digits(out: &mut [u8], at: usize, number: u64) -> usize
    requires { at + length (decimal number) ≤ length out.old }
    ensures bytes { out.new ≡ pasted at (decimal number) out.old }
    ensures end { result ≡ at + length (decimal number) }
{
    let end = at + count_digits(number);
    write_digits(number, out, end);
    end
}

// Writes a whole number, and answers the place behind it.
pub(crate) fn put_signed(out: &mut [u8], at: usize, number: i64) -> usize
    requires { at + length (signed_decimal number) ≤ length out.old }
    ensures bytes { out.new ≡ pasted at (signed_decimal number) out.old }
    ensures end { result ≡ at + length (signed_decimal number) }
{
    let size = number.unsigned_abs();
    if number < 0 {
        put_byte(out, at, MINUS);
        put_digits(out, at + 1, size)
    } else {
        put_digits(out, at, size)
    }
}
