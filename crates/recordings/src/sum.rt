//! The sum of bytes, which differs for most different bytes.

use std::cmp::min;
use std::io::IoSlice;

/// The number of bytes of a word.
const WORD: usize = 8;

/// The number of words that are added side by side.
const LANES: usize = 4;

/// The sum of bytes that come in chunks, as `docs/TRACES.md` defines it. The bytes are words of eight bytes,
/// of which the last may be shorter. One number is the sum of the words, and another the sum of all those
/// sums.
#[derive(Clone, Copy)]
struct Sum {
    sum: u64,
    sums: u64,
    /// The bytes of an incomplete word as a number, the first byte lowest.
    word: u64,
    /// The factor of the next byte of the word.
    scale: u64,
    /// The number of bytes that the word lacks; 0 if it hasn't begun.
    missing: usize,
}

/// The sum of words, and the sum of all those sums.
#[derive(Clone, Copy)]
struct Lane {
    sum: u64,
    sums: u64,
}

impl Lane {
    /// Creates the sum of no words.
    fn new() -> Lane {
        Lane { sum: 0, sums: 0 }
    }

    /// Adds a word.
    fn add(&mut self, word: [u8; WORD]) {
        self.sum = self.sum.wrapping_add(u64::from_le_bytes(word));
        self.sums = self.sums.wrapping_add(self.sum);
    }
}

impl Sum {
    /// Creates the sum of no bytes.
    fn new() -> Sum {
        Sum {
            sum: 0,
            sums: 0,
            word: 0,
            scale: 1,
            missing: 0,
        }
    }

    /// Adds bytes.
    fn add(&mut self, bytes: &[u8]) {
        let (prefix, rest) = bytes.split_at(min(self.missing, bytes.len()));
        self.add_bytes(prefix);
        let (words, last) = rest.as_chunks::<WORD>();
        self.add_words(words);
        self.add_bytes(last);
    }

    /// Adds words, where the word before them is complete.
    fn add_words(&mut self, words: &[[u8; WORD]]) {
        let (groups, last) = words.as_chunks::<LANES>();
        self.add_groups(groups);
        for word in last {
            self.sum = self.sum.wrapping_add(u64::from_le_bytes(*word));
            self.sums = self.sums.wrapping_add(self.sum);
        }
    }

    /// Adds groups of words. The first words of all groups are a lane, and so are the second, the third and the
    /// fourth words: a processor adds lanes side by side, where it adds words to one sum one after the other.
    fn add_groups(&mut self, groups: &[[[u8; WORD]; LANES]]) {
        let mut first = Lane::new();
        let mut second = Lane::new();
        let mut third = Lane::new();
        let mut fourth = Lane::new();
        for [one, two, three, four] in groups {
            first.add(*one);
            second.add(*two);
            third.add(*three);
            fourth.add(*four);
        }
        let words = (groups.len() as u64).wrapping_mul(LANES as u64);
        self.sums = self.sums.wrapping_add(words.wrapping_mul(self.sum));
        self.add_lane(first, 0);
        self.add_lane(second, 1);
        self.add_lane(third, 2);
        self.add_lane(fourth, 3);
    }

    /// Adds a lane, whose words are at this place of their groups. Each word counts in the sums from its own on: in
    /// four for each group from its own on, less those at places before it.
    fn add_lane(&mut self, lane: Lane, place: u64) {
        let all = lane.sums.wrapping_mul(LANES as u64);
        let before = lane.sum.wrapping_mul(place);
        self.sum = self.sum.wrapping_add(lane.sum);
        self.sums = self.sums.wrapping_add(all.wrapping_sub(before));
    }

    /// Adds bytes, one after the other.
    fn add_bytes(&mut self, bytes: &[u8]) {
        for byte in bytes {
            self.add_byte(*byte);
        }
    }

    /// Adds a byte.
    fn add_byte(&mut self, byte: u8) {
        let counts = self.scale.wrapping_mul(u64::from(byte));
        self.word = self.word.wrapping_add(counts);
        self.scale = self.scale.wrapping_mul(256);
        match self.missing {
            0 => self.missing = WORD - 1,
            1 => self.end_word(),
            more => self.missing = more - 1,
        }
    }

    /// Ends the current word, which is complete or the last one.
    fn end_word(&mut self) {
        self.sum = self.sum.wrapping_add(self.word);
        self.sums = self.sums.wrapping_add(self.sum);
        self.word = 0;
        self.scale = 1;
        self.missing = 0;
    }

    /// The sum, once all bytes were added.
    fn value(&mut self) -> u32 {
        if self.missing > 0 {
            self.end_word();
        }
        let mixed = self.sum ^ self.sums.rotate_left(17);
        ((mixed ^ (mixed >> 32)) & 0xffff_ffff) as u32
    }
}

/// The sum of bytes.
pub(crate) fn sum_of(bytes: &[u8]) -> u32 {
    let mut sum = Sum::new();
    sum.add(bytes);
    sum.value()
}

/// The sum of a prefix of bytes in parts, of at most `count` bytes, computed without a copy.
pub(crate) fn sum_of_prefix(parts: &[IoSlice<'_>], count: usize) -> u32 {
    let mut sum = Sum::new();
    let mut left = count;
    for part in parts {
        let bytes = part.as_slice();
        let taken = min(left, bytes.len());
        sum.add(&bytes[..taken]);
        left -= taken;
    }
    sum.value()
}
