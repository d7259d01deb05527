// Texts that nobody wrote: pseudo-random bytes, and good texts with each byte damaged in turn. What
// reading them answers is counted by the number of the refusal.
use crate::answers::answer_number;
use kinds::Total;
use std::alloc::{AllocError, Global};

const TEXTS: usize = 300;

// How many texts were answered by each number; 0 for those accepted, 15 for a list that changed.
#[derive(Drop)]
pub struct Tally {
    counts: [usize; 16],
}

impl Tally {
    fn new() -> Tally {
        Tally { counts: [0; 16] }
    }

    fn add(&mut self, number: u8) {
        if let Some(count) = self.counts.get_mut(number as usize) {
            *count = count.saturating_add(1);
        }
    }

    pub fn print(&self, rt: &HostRuntime, label: &str) -> anyhow::Result<()> {
        print!(rt; "{label}:")?;
        for (number, count) in self.counts.iter().enumerate() {
            let times = *count;
            if times > 0 {
                print!(rt; " {times} of {number}")?;
            }
        }
        println!(rt; "")?;
        Ok(())
    }
}

// A linear congruential generator, by its high bits.
fn stirred(state: u64) -> u64 {
    state
        .wrapping_mul(6_364_136_223_846_793_005)
        .wrapping_add(1_442_695_040_888_963_407)
}

fn drawn(state: u64) -> u8 {
    ((state >> 56) & 0xff) as u8
}

// One of the words, counted from 0; they are separated by a space.
fn word(words: &[u8], number: u8) -> &[u8] {
    words
        .split(|byte| *byte == b' ')
        .nth(number as usize)
        .unwrap_or(&[])
}

// Texts that begin with a names line and go on with words drawn from sixteen, or with bytes of any
// value where there are none; how many is drawn too, as the bits of `mask`.
pub fn random_texts<K: Total>(
    heap: Global,
    names: &[u8],
    words: &[u8],
    mask: u8,
) -> Result<Tally, AllocError> {
    let mut tally = Tally::new();
    let mut state = 1u64;
    for _ in 0..TEXTS {
        let mut text = names.to_vec(heap)?;
        state = stirred(state);
        for _ in 0..drawn(state) & mask {
            state = stirred(state);
            if words.is_empty() {
                text.push(drawn(state))?;
            } else {
                text.extend_from_slice(word(words, drawn(state) % 16))?;
            }
        }
        tally.add(answer_number::<K>(heap, 1, text.as_slice())?);
    }
    Ok(tally)
}

fn put(bytes: &mut [u8], place: usize, value: u8) {
    if let Some(byte) = bytes.get_mut(place) {
        *byte = value;
    }
}

// A text with every value at every place.
pub fn damaged_texts<K: Total>(heap: Global, good: &[u8]) -> Result<Tally, AllocError> {
    let mut tally = Tally::new();
    let mut text = good.to_vec(heap)?;
    for (place, kept) in good.iter().enumerate() {
        for value in 0..=255u8 {
            put(text.as_mut_slice(), place, value);
            tally.add(answer_number::<K>(heap, 2, text.as_slice())?);
        }
        put(text.as_mut_slice(), place, *kept);
    }
    Ok(tally)
}

// A text cut off at every place.
pub fn cut_texts<K: Total>(heap: Global, good: &[u8]) -> Result<Tally, AllocError> {
    let mut tally = Tally::new();
    for (end, _) in good.iter().enumerate() {
        tally.add(answer_number::<K>(heap, 2, &good[0..end])?);
    }
    Ok(tally)
}
