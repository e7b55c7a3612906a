// The words of a line, which one blank parts: the first is a call's name, the others are bytes in hexadecimal, a dot for none.

ghost use Rattle.std.specs.Prelude.{◌≤◌};

// Whether a byte is a digit in hexadecimal.
fn is_digit(byte: u8) -> bool {
    matches!(byte, b'0'..=b'9' | b'a'..=b'f')
}

// Whether a word is bytes in hexadecimal, or a dot.
pub(crate) fn is_bytes(word: &[u8]) -> bool {
    match word {
        [byte] => *byte == b'.',
        _ => word.len() % 2 == 0 && word.iter().all(|&byte| is_digit(byte)),
    }
}

// The worth of a digit in hexadecimal, 0 for any other byte.
fn half(byte: u8) -> u8
    ensures { result ≤ 15 }
{
    match byte {
        b'0'..=b'9' => byte - b'0',
        b'a'..=b'f' => byte - b'a' + 10,
        _ => 0,
    }
}

// The byte that two digits in hexadecimal are.
fn byte_of(high: u8, low: u8) -> u8 {
    half(high) * 16 + half(low)
}

// Puts the bytes that a word has in hexadecimal into a buffer, and gives these; those that find no room are left out.
pub(crate) fn decode<'a>(word: &[u8], buffer: &'a mut [u8]) -> &'a mut [u8] {
    let (pairs, _) = word.as_chunks::<2>();
    for (byte, &[high, low]) in buffer.iter_mut().zip(pairs) {
        *byte = byte_of(high, low);
    }
    let size = pairs.len().min(buffer.len());
    &mut buffer[..size]
}

// The whole number that bytes are, the first highest; of more than eight the last eight count.
pub(crate) fn whole(bytes: &[u8]) -> usize {
    bytes
        .iter()
        .fold(0, |value: usize, &byte| (value << 8) | usize::from(byte))
}
