//! Lines that two texts share at their ends.
use memchr::{memchr, memrchr};

/// Whether a line begins at an offset of a text.
pub(crate) fn begins_line(text: &[u8], at: usize) -> bool {
    at == 0 || text.get(at.wrapping_sub(1)) == Some(&b'\n')
}

/// How many bytes the lines have that both texts begin with.
pub(crate) fn shared_front(a: &[u8], b: &[u8]) -> usize {
    let mut len = 0usize;
    'bytes: for (x, y) in a.iter().zip(b.iter()) {
        if x != y {
            break;
        }
        len = len.wrapping_add(1);
    }
    if len == a.len() && len == b.len() {
        return len;
    }
    match memrchr(b'\n', a.get(..len).unwrap_or(&[])) {
        Some(place) => place.wrapping_add(1),
        None => 0,
    }
}

/// How many bytes the lines have that both texts end with.
pub(crate) fn shared_back(a: &[u8], b: &[u8]) -> usize {
    let mut len = 0usize;
    'bytes: for (x, y) in a.iter().rev().zip(b.iter().rev()) {
        if x != y {
            break;
        }
        len = len.wrapping_add(1);
    }
    let a_from = a.len().wrapping_sub(len);
    let b_from = b.len().wrapping_sub(len);
    if begins_line(a, a_from) && begins_line(b, b_from) {
        return len;
    }
    match memchr(b'\n', a.get(a_from..).unwrap_or(&[])) {
        Some(place) => len.wrapping_sub(place).wrapping_sub(1),
        None => 0,
    }
}
