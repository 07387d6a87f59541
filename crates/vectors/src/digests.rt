// Digests of messages in parts, and of whole messages.
use crate::kinds::HashKind;
use crate::text::{bytes, number, unhex, word};
use anyhow::anyhow;
use hash::digest::Hash;
use hash::limits::DIGEST_LEN;
use sha3::digest::Sha3;
use sha256::digest::Sha256;
use std::alloc::Global;
use std::str::SplitWhitespace;

// Bytes `from` to `to` of the message whose parts have n bytes together; byte 0 is the lead.
fn part(heap: Global, from: usize, to: usize, n: usize) -> anyhow::Result<Vec<u8>> {
    let first = n.wrapping_mul(7).wrapping_add(3);
    let part = (from..to)
        .map(|i| (i.wrapping_mul(31).wrapping_add(first) % 251) as u8)
        .collect(heap)?;
    Ok(part)
}

fn digest_in_parts<H: Hash>(
    heap: Global,
    lead: u8,
    left: usize,
    right: usize,
) -> anyhow::Result<[u8; DIGEST_LEN]> {
    let n = left.wrapping_add(right);
    let cut = left.wrapping_add(1);
    let first = part(heap, 1, cut, n)?;
    let second = part(heap, cut, n.wrapping_add(1), n)?;
    let mut out = [0u8; DIGEST_LEN];
    H::digest(lead, first.as_slice(), second.as_slice(), &mut out)?;
    Ok(out)
}

// `digest KIND LEAD LEFT RIGHT HEX`
fn in_parts(heap: Global, words: &mut SplitWhitespace<'_>) -> anyhow::Result<[u8; DIGEST_LEN]> {
    let kind = number(words)?;
    let lead = word(words)?.parse::<u8>()?;
    let left = number(words)?;
    let right = number(words)?;
    match HashKind::try_from(kind)? {
        HashKind::Sha256 => digest_in_parts::<Sha256>(heap, lead, left, right),
        HashKind::Sha3 => digest_in_parts::<Sha3>(heap, lead, left, right),
    }
}

fn whole_digest(kind: usize, message: &[u8]) -> anyhow::Result<[u8; DIGEST_LEN]> {
    let mut out = [0u8; DIGEST_LEN];
    match HashKind::try_from(kind)? {
        HashKind::Sha256 => Sha256::hash_message(message, &mut out)?,
        HashKind::Sha3 => Sha3::hash_message(message, &mut out)?,
    }
    Ok(out)
}

// `message KIND HEX HEX`, with - for the empty message
fn whole(heap: Global, words: &mut SplitWhitespace<'_>) -> anyhow::Result<[u8; DIGEST_LEN]> {
    let kind = number(words)?;
    let text = word(words)?;
    if text == "-" {
        return whole_digest(kind, &[]);
    }
    let message = unhex(heap, text)?;
    whole_digest(kind, message.as_slice())
}

// Whether the library answers as a line of `digests.txt` says.
pub fn agrees(heap: Global, line: &str) -> anyhow::Result<bool> {
    let mut words = line.split_whitespace();
    let ours = match word(&mut words)? {
        "digest" => in_parts(heap, &mut words)?,
        "message" => whole(heap, &mut words)?,
        _ => return Err(anyhow!("a line has an unknown word")),
    };
    let theirs = bytes(heap, &mut words)?;
    Ok(theirs.as_slice() == ours.as_slice())
}
