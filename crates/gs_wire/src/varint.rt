//! Base 128 varints (Protocol Buffers, Encoding, "Base 128 Varints").
ghost use Rattle.std.specs.Prelude.{◌≡◌, ◌+◌, ◌≤◌, ◌++◌, ◌<◌, ◌^◌, length, drop, option_map, IfSome, vec_len, vec_capacity};
ghost use Rattle.gs_wire.specs.Reading.{varint_at, varint_at_most};
ghost use Rattle.gs_wire.specs.Varint.{varint, varint_within};

/// The most bytes of a varint: ten groups of seven bits hold 64 bits.
pub(crate) const MAX_VARINT: u32 = 10;

/// Returns the varint of at most `most` bytes at the front, and how many bytes it takes.
#[tactic(auto, unfolding(crate::specs::Reading::varint_at_most))]
fn varint_at_most(most: u32, bytes: &[u8]) -> Option<(u64, usize)>
    ensures value { option_map (λ x. (x.0, drop x.1 bytes.now)) result ≡ varint_at_most most bytes.now }
    ensures within { IfSome result (λ x. x.1 ≤ length bytes.now) }
{
    if most == 0 {
        return None;
    }
    let (first, rest) = bytes.split_first()?;
    if *first < 128 {
        return Some((u64::from(*first), 1));
    }
    let low = u64::from(*first - 128);
    let (high, count) = varint_at_most(most - 1, rest)?;
    let number = high.checked_mul(128)?.checked_add(low)?;
    Some((number, count + 1))
}

/// Returns the varint at the front, in any of its spellings, and how many bytes it takes. Most varints take one or two.
#[inline(always)]
#[tactic(auto, unfolding(crate::specs::Reading::varint_at, crate::specs::Reading::varint_at_most))]
pub(crate) fn varint_at(bytes: &[u8]) -> Option<(u64, usize)>
    ensures value { option_map (λ x. (x.0, drop x.1 bytes.now)) result ≡ varint_at bytes.now }
    ensures within { IfSome result (λ x. x.1 ≤ length bytes.now) }
{
    let (first, rest) = bytes.split_first()?;
    if *first < 128 {
        return Some((u64::from(*first), 1));
    }
    match rest.first() {
        Some(second) if *second < 128 => {
            Some((u64::from(*first - 128) + 128 * u64::from(*second), 2))
        }
        _ => varint_at_most(MAX_VARINT, bytes),
    }
}

/// Returns how many bytes the shortest spelling of a number takes.
pub(crate) fn varint_len(number: u64) -> usize
    ensures { result ≡ length (varint number) }
{
    let mut len = 1;
    let mut rest = number;
    while rest >= 128 {
        rest /= 128;
        len += 1;
    }
    len
}

/// Writes the shortest spelling of a number at the end of a buffer that has room for it.
pub(crate) fn put_varint(buffer: &mut Vec<u8>, number: u64)
    requires { vec_len buffer.old + length (varint number) ≤ vec_capacity buffer.old }
    ensures written { buffer.new.items ≡ buffer.old.items ++ varint number }
    ensures capacity { vec_capacity buffer.new ≡ vec_capacity buffer.old }
{
    let mut rest = number;
    while rest >= 128 {
        buffer.push_reserved((rest % 128) as u8 + 128);
        rest /= 128;
    }
    buffer.push_reserved(rest as u8);
}
