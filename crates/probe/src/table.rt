// The node table that is lent to the calls, and the hash by which a table is told.
use std::alloc::{AllocError, Global};

// The hash of no bytes.
pub(crate) const UNHASHED: u64 = 0xcbf2_9ce4_8422_2325;

// The 64-bit FNV-1a hash of bytes, on top of that of what came before them.
pub(crate) fn hashed(hash: u64, bytes: &[u8]) -> u64 {
    let mut hash = hash;
    for byte in bytes {
        hash = (hash ^ u64::from(*byte)).wrapping_mul(0x0000_0100_0000_01b3);
    }
    hash
}

// The node table, and how much of it is lent to the calls.
#[derive(Drop)]
pub(crate) struct LentTable {
    numbers: Vec<u16>,
    // The first so many are lent, or all where there are fewer.
    pub lent: usize,
}

impl LentTable {
    // Number j is seed + 40,503 j, less what is over 16 bits.
    pub(crate) fn new(heap: Global, count: usize, seed: u64) -> Result<LentTable, AllocError> {
        let numbers: Vec<u16> = (0u64..)
            .take(count)
            .map(|index| (seed.wrapping_add(index.wrapping_mul(40_503)) % 65_536) as u16)
            .collect(heap)?;
        Ok(LentTable {
            numbers,
            lent: count,
        })
    }

    pub(crate) fn lent(&self) -> &[u16] {
        let end = self.lent.min(self.numbers.len());
        &self.numbers.as_slice()[..end]
    }

    pub(crate) fn lent_mut(&mut self) -> &mut [u16] {
        let end = self.lent.min(self.numbers.len());
        &mut self.numbers.as_mut_slice()[..end]
    }

    // The hash of all its numbers, two bytes each and the high one first.
    pub(crate) fn hash(&self) -> u64 {
        let mut hash = UNHASHED;
        for number in &self.numbers {
            hash = hashed(hash, &number.to_be_bytes());
        }
        hash
    }
}
