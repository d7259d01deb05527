// The table's own writing: rows cut at marks, plain numbers, and texts in which `\n` is a line feed,
// `\r` a carriage return, and `{9 ab}` stands for nine times `ab`, with the number of the time for `#`.
use std::alloc::{AllocError, Global};

// What stands before the first such mark, and what follows it.
pub fn cut(bytes: &[u8], mark: u8) -> (&[u8], &[u8]) {
    match bytes.iter().position(|byte| *byte == mark) {
        Some(end) => (&bytes[..end], &bytes[end + 1..]),
        None => (bytes, &[]),
    }
}

// The number that the digits make.
pub fn number_of(digits: &[u8]) -> usize {
    let mut number = 0usize;
    for byte in digits {
        if let b'0'..=b'9' = *byte {
            number = number
                .saturating_mul(10)
                .saturating_add((*byte - b'0') as usize);
        }
    }
    number
}

fn escaped(byte: u8) -> u8 {
    match byte {
        b'n' => b'\n',
        b'r' => b'\r',
        other => other,
    }
}

fn put_bytes(
    heap: Global,
    text: &mut Vec<u8>,
    coded: &[u8],
    time: usize,
) -> Result<(), AllocError> {
    let mut escapes = false;
    for byte in coded {
        if escapes {
            text.push(escaped(*byte))?;
            escapes = false;
        } else if *byte == b'\\' {
            escapes = true;
        } else if *byte == b'#' {
            let number = format!(in heap; "{time}")?;
            text.extend_from_slice(number.as_bytes())?;
        } else {
            text.push(*byte)?;
        }
    }
    Ok(())
}

// The text that is written so.
pub fn decoded(heap: Global, coded: &[u8]) -> Result<Vec<u8>, AllocError> {
    let mut text = Vec::new(heap);
    let mut left = coded;
    // A round takes at least one byte while one is left, so this many rounds take all.
    for _ in 0..coded.len() {
        let (plain, more) = cut(left, b'{');
        put_bytes(heap, &mut text, plain, 0)?;
        let (times, rest) = cut(more, b'}');
        let (count, piece) = cut(times, b' ');
        for time in 1..=number_of(count) {
            put_bytes(heap, &mut text, piece, time)?;
        }
        left = rest;
    }
    Ok(text)
}
