// Words and numbers of a line of vectors.
use anyhow::anyhow;
use std::alloc::Global;
use std::str::SplitWhitespace;

// The next word of a line.
pub fn word<'a>(words: &mut SplitWhitespace<'a>) -> anyhow::Result<&'a str> {
    match words.next() {
        Some(w) => Ok(w),
        None => Err(anyhow!("a line has too few words")),
    }
}

// The next word, as a number.
pub fn number(words: &mut SplitWhitespace<'_>) -> anyhow::Result<usize> {
    Ok(word(words)?.parse::<usize>()?)
}

// The bytes that a text has in hexadecimal, in small letters. A last digit that has no other makes no byte.
pub fn unhex(heap: Global, text: &str) -> anyhow::Result<Vec<u8>> {
    let digits = text.as_bytes();
    if !digits
        .iter()
        .all(|digit| matches!(*digit, b'0'..=b'9' | b'a'..=b'f'))
    {
        return Err(anyhow!("a digit is not hexadecimal"));
    }
    let (pairs, _) = digits.as_chunks::<2>();
    Ok(hex::decode(heap, pairs.as_flattened())?)
}

// The next word, as bytes in hexadecimal.
pub fn bytes(heap: Global, words: &mut SplitWhitespace<'_>) -> anyhow::Result<Vec<u8>> {
    unhex(heap, word(words)?)
}
