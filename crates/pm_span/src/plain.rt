//! Counts plain bytes, which are ASCII but no line feed, in words of 8 bytes.
ghost use Rattle.std.specs.Prelude.{◌≡◌, ◌<◌, IfNone, IfSome};
ghost use Rattle.std.specs.List.{prefix_len};
ghost use Rattle.pm_span.specs.Plain.{is_plain};

/// Returns how many plain bytes the 8 bytes begin with, or `None` if all 8 are plain.
///
/// All 8 are tested in one word. `^` turns a line feed into 0, and `&` clears each highest bit. Then the addition
/// sets the highest bit of each byte that isn't 0.
#[inline(always)]
fn count_in_word(bytes: &[u8; 8]) -> Option<usize>
    ensures all { IfNone result (8 ≡ prefix_len is_plain bytes.now) }
    ensures some { IfSome result (λ n. n ≡ prefix_len is_plain bytes.now) }
    ensures few { IfSome result (λ n. n < 8) }
{
    let word = u64::from_le_bytes(*bytes);
    let turned = (word ^ 0x0A0A_0A0A_0A0A_0A0A) & 0x7F7F_7F7F_7F7F_7F7F;
    let stops = (!(turned + 0x7F7F_7F7F_7F7F_7F7F) | word) & 0x8080_8080_8080_8080;
    if stops == 0 {
        return None;
    }
    Some((stops.trailing_zeros() / 8) as usize)
}

/// Returns how many plain bytes the text begins with, one byte at a time.
#[inline(always)]
fn count_by_bytes(bytes: &[u8]) -> usize
    ensures { result ≡ prefix_len is_plain bytes.now }
{
    let mut count = 0;
    while count < bytes.len() && bytes[count] < 128 && bytes[count] != b'\n' {
        count += 1;
    }
    count
}

/// Returns how many plain bytes the text begins with.
#[inline(always)]
pub(crate) fn count_plain(bytes: &[u8]) -> usize
    ensures { result ≡ prefix_len is_plain bytes.now }
{
    let mut count = 0;
    let mut rest = bytes;
    while let Some((word, after)) = rest.split_first_chunk::<8>() {
        if let Some(more) = count_in_word(word) {
            return count + more;
        }
        count += 8;
        rest = after;
    }
    count + count_by_bytes(rest)
}
