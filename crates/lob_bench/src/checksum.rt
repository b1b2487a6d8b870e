//! A checksum, by which two runs are compared (FNV-1a).

/// The checksum of nothing.
pub const START: u64 = 0xcbf2_9ce4_8422_2325;

const PRIME: u64 = 0x0100_0000_01b3;

pub fn mixed(sum: u64, value: u64) -> u64 {
    (sum ^ value).wrapping_mul(PRIME)
}

pub fn checksum(bytes: &[u8]) -> u64 {
    let mut sum = START;
    for byte in bytes {
        sum = mixed(sum, u64::from(*byte));
    }
    sum
}
