// Bytes as text.
use std::alloc::{AllocError, Global};

// The bytes as numbers, each four columns wide.
pub fn numbers(heap: Global, bytes: &[u8]) -> Result<String, AllocError> {
    let mut text = String::new(heap);
    for b in bytes {
        let column = format!(in heap; "{b:>4}")?;
        text.push_str(column.as_str())?;
    }
    Ok(text)
}
