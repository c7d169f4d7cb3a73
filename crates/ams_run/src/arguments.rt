use std::alloc::{AllocError, Global};
use std::env::{Env, FillError};

// A word of the command line, from 0, the program's name. Bytes that aren't UTF-8 become a mark that no option and
// no value has, so that the word is refused.
fn word<R: Env>(rt: &R, alloc: Global, number: usize) -> Result<Option<String>, AllocError> {
    let mut room = 256usize;
    for _turn in 0..usize::BITS {
        let mut bytes = vec![in alloc; 0u8; room]?;
        match rt.arg(number, &mut bytes) {
            Ok(len) => return Ok(Some(String::from_utf8_lossy(alloc, &bytes[..len])?)),
            Err(FillError::NotPresent) => return Ok(None),
            Err(FillError::TooLong) => room = room.saturating_mul(2),
        }
    }
    Err(AllocError)
}

/// The words behind the program's name.
pub fn words<R: Env>(rt: &R, alloc: Global) -> Result<Vec<String>, AllocError> {
    let mut words = Vec::new(alloc);
    for number in 1..usize::MAX {
        match word(rt, alloc, number)? {
            Some(word) => words.push(word)?,
            None => break,
        }
    }
    Ok(words)
}
