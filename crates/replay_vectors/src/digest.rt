// The digest of an output: the 32-bit FNV-1a over its bytes.

// The digest of no bytes, and what it is multiplied with at each byte.
const START: u32 = 0x811c_9dc5;

const FACTOR: u32 = 0x0100_0193;

/// The digest of some bytes.
pub(crate) fn digest_of(bytes: &[u8]) -> u32 {
    bytes.iter().fold(START, |digest, &byte| {
        (digest ^ u32::from(byte)).wrapping_mul(FACTOR)
    })
}
