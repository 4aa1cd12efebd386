// Texts out of bytes, which need not be UTF-8.

// What stands between two separators; empty where there is no such place.
pub(crate) fn piece(text: &[u8], separator: u8, i: usize) -> &[u8] {
    text.split(|byte| *byte == separator).nth(i).unwrap_or(&[])
}

// The text without its last byte, where that is the one to end it.
pub(crate) fn without_end(text: &[u8], end: u8) -> &[u8] {
    match text {
        [front @ .., last] if *last == end => front,
        _ => text,
    }
}
