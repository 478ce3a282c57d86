// Bytes and numbers of a part. "All numbers little-endian"; what stands past the end reads as 0.
ghost use Rattle.std.specs.Prelude.{◌≡◌, ℕ, ◌+◌, ◌*◌, ◌<◌, get_or};
ghost use Rattle.rules.specs.Image.{le16, le64};

use crate::slices::get_or;

// The N bytes from a place on.
pub fn bytes_at<const N: usize>(s: &[u8], at: usize) -> [u8; N]
    ensures { (k : ℕ) → k < N → get_or result k 0 ≡ get_or s.now (at + k) 0 }
{
    let mut bytes = [0u8; N];
    if at < s.len() {
        let rest = &s[at..];
        if N <= rest.len() {
            bytes.copy_from_slice(&rest[..N]);
        } else {
            bytes[..rest.len()].copy_from_slice(rest);
        }
    }
    bytes
}

// The byte at a place.
pub fn u8_at(s: &[u8], at: usize) -> u8
    ensures { result ≡ get_or s.now at 0 }
{
    get_or(s, at, 0)
}

// The number of two bytes, the low one first.
pub fn le16(low: u8, high: u8) -> u16
    ensures { result ≡ low + high * 256 }
{
    u16::from_le_bytes([low, high])
}

// The number of two bytes at a place. One function for each width, since `from_le_bytes` is a method of each.
pub fn u16_at(s: &[u8], at: usize) -> u16
    ensures { result ≡ le16 s.now at }
{
    u16::from_le_bytes(bytes_at(s, at))
}

// The number of eight bytes at a place.
#[tactic(auto, unfolding(rules::specs::Image::le64, rules::specs::Image::le32))]
pub fn u64_at(s: &[u8], at: usize) -> u64
    ensures { result ≡ le64 s.now at }
{
    u64::from_le_bytes(bytes_at(s, at))
}
