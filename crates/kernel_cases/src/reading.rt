//! What a row writes.

use std::alloc::{AllocError, Global};

pub fn words_of(alloc: Global, row: &str) -> Result<Vec<String>, AllocError> {
    let mut words = Vec::new(alloc);
    for word in row.split(' ') {
        words.push(String::from_str(alloc, word)?)?;
    }
    Ok(words)
}

/// The bytes of a text as a row writes them. None where two digits are missing.
pub fn bytes_of(alloc: Global, row: &str) -> Option<Vec<u8>> {
    let mut bytes = Vec::new(alloc);
    let mut parts = row.split("\\x");
    bytes.extend_from_slice(parts.next()?.as_bytes()).ok()?;
    for part in parts {
        let (digits, rest) = part.split_at_checked(2)?;
        bytes.push(u8::from_str_radix(digits, 16).ok()?).ok()?;
        bytes.extend_from_slice(rest.as_bytes()).ok()?;
    }
    Some(bytes)
}
