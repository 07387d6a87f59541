// The hashes and the codes that a line names, by the numbers that name them in a header.
use anyhow::anyhow;
use erasure::code::Code;
use erasure::kinds::{Cauchy, Polynomial};
use hash::digest::Hash;
use sha3::digest::Sha3;
use sha256::digest::Sha256;

#[derive(Clone, Copy, PartialEq, Eq, Drop)]
pub enum HashKind {
    Sha256,
    Sha3,
}

#[derive(Clone, Copy, PartialEq, Eq, Drop)]
pub enum CodeKind {
    Polynomial,
    Cauchy,
}

impl From<HashKind> for u8 {
    fn from(kind: HashKind) -> u8 {
        match kind {
            HashKind::Sha256 => Sha256::KIND,
            HashKind::Sha3 => Sha3::KIND,
        }
    }
}

impl From<CodeKind> for u8 {
    fn from(kind: CodeKind) -> u8 {
        match kind {
            CodeKind::Polynomial => Polynomial::KIND,
            CodeKind::Cauchy => Cauchy::KIND,
        }
    }
}

// A number that a line has where it names a hash; it need not be a byte.
impl TryFrom<usize> for HashKind {
    type Error = anyhow::Error;

    fn try_from(number: usize) -> anyhow::Result<HashKind> {
        let kinds = [HashKind::Sha256, HashKind::Sha3];
        match kinds
            .iter()
            .find(|kind| usize::from(u8::from(**kind)) == number)
        {
            Some(kind) => Ok(*kind),
            None => Err(anyhow!("a line has an unknown hash")),
        }
    }
}

// The same for a code.
impl TryFrom<usize> for CodeKind {
    type Error = anyhow::Error;

    fn try_from(number: usize) -> anyhow::Result<CodeKind> {
        let kinds = [CodeKind::Polynomial, CodeKind::Cauchy];
        match kinds
            .iter()
            .find(|kind| usize::from(u8::from(**kind)) == number)
        {
            Some(kind) => Ok(*kind),
            None => Err(anyhow!("a line has an unknown code")),
        }
    }
}
