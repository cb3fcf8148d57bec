//! A digest of bytes that come in pieces. Where the pieces end does not matter.

use device::{Failed, Sink};
use std::io::{self, Write};

/// How many bytes are taken together.
const BLOCK: usize = 4096;

/// A digest of the bytes so far.
#[derive(Drop)]
pub struct Digest {
    /// A sum of each fourth word.
    lanes: [u64; 4],
    /// The bytes behind the last whole block.
    begun: [u8; BLOCK],
    filled: usize,
    length: u64,
}

/// A sum with a word more.
fn mixed(sum: u64, word: u64) -> u64 {
    (sum ^ word)
        .wrapping_mul(0x9e37_79b9_7f4a_7c15)
        .rotate_left(29)
}

/// The sums with the words of a block more.
fn mixed_block(lanes: [u64; 4], block: &[u8; BLOCK]) -> [u64; 4] {
    let [mut a, mut b, mut c, mut d] = lanes;
    let (words, _) = block.as_slice().as_chunks::<8>();
    let (fours, _) = words.as_chunks::<4>();
    for [first, second, third, fourth] in fours {
        a = mixed(a, u64::from_le_bytes(*first));
        b = mixed(b, u64::from_le_bytes(*second));
        c = mixed(c, u64::from_le_bytes(*third));
        d = mixed(d, u64::from_le_bytes(*fourth));
    }
    [a, b, c, d]
}

impl Digest {
    pub fn new() -> Digest {
        Digest {
            lanes: [1, 2, 3, 4],
            begun: [0; BLOCK],
            filled: 0,
            length: 0,
        }
    }

    /// Puts a beginning of the bytes behind those of a block that was begun, and gives the others.
    #[inline]
    fn fill<'a>(&mut self, bytes: &'a [u8]) -> &'a [u8] {
        match self.begun.as_mut_slice().split_at_mut_checked(self.filled) {
            None => &[],
            Some((_, room)) => {
                let count = bytes.len().min(room.len());
                let (front, rest) = bytes.split_at(count);
                let (to, _) = room.split_at_mut(count);
                to.copy_from_slice(front);
                self.filled = self.filled.saturating_add(count);
                rest
            }
        }
    }

    /// Takes bytes.
    pub fn take(&mut self, bytes: &[u8]) {
        self.length = self.length.wrapping_add(bytes.len() as u64);
        let rest = self.fill(bytes);
        if self.filled < BLOCK {
            return;
        }
        self.lanes = mixed_block(self.lanes, &self.begun);
        self.filled = 0;
        let (blocks, end) = rest.as_chunks::<BLOCK>();
        for block in blocks {
            self.lanes = mixed_block(self.lanes, block);
        }
        self.fill(end);
    }

    /// Takes a number.
    pub fn take_number(&mut self, number: u64) {
        self.take(&number.to_le_bytes());
    }

    /// The digest.
    pub fn value(&self) -> u64 {
        let mut all = self.length;
        for lane in self.lanes {
            all = mixed(all, lane);
        }
        for byte in self.begun.iter().take(self.filled) {
            all = mixed(all, *byte as u64);
        }
        all
    }
}

impl Write for Digest {
    fn write(&mut self, bytes: &[u8]) -> io::Result<usize> {
        self.take(bytes);
        Ok(bytes.len())
    }

    fn flush(&mut self) -> io::Result<()> {
        Ok(())
    }
}

/// A device that keeps a digest of what it takes.
#[derive(Drop)]
pub struct DigestSink {
    pub digest: Digest,
}

impl DigestSink {
    pub fn new() -> DigestSink {
        DigestSink {
            digest: Digest::new(),
        }
    }
}

impl Sink for DigestSink {
    ghost failures = { λ _. 0 };

    fn write(&mut self, bytes: &[u8]) -> Result<usize, Failed> {
        self.digest.take(bytes);
        Ok(bytes.len())
    }

    fn flush(&mut self) -> Result<(), Failed> {
        Ok(())
    }
}
