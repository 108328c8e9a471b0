// Lists as lines of hexadecimal digits.
use std::alloc::{AllocError, Global};

// The number of a digit; none for another byte. A capital is none, unlike in `char::to_digit`: the lists are written in small ones.
pub fn digit(b: u8) -> Option<u8> {
    match b {
        b'0'..=b'9' => Some(b - b'0'),
        b'a'..=b'f' => Some(b - b'a' + 10),
        _ => None,
    }
}

// The bytes of a line; what is no digit is passed over, and so is a last digit that has no other beside it. In one pass, so that a long line is not
// held a second time.
pub fn bytes_of(heap: Global, line: &[u8]) -> Result<Vec<u8>, AllocError> {
    let mut bytes = Vec::new(heap);
    let mut digits = line.iter().filter_map(|b| digit(*b));
    while let Some(high) = digits.next() {
        let Some(low) = digits.next() else {
            break;
        };
        bytes.push(high << 4 | low)?;
    }
    Ok(bytes)
}
