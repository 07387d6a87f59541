// A proof of bad encoding, as parts of its bytes.

#[derive(Clone, Copy)]
pub struct Proof<'a> {
    // The claimed line; axis 0 is a row, 1 a column. It is a byte, as a proof is also made by hand, of any bytes.
    pub axis: u8,
    pub index: u16,
    // The root claimed for it, and its path in the data tree.
    pub root: &'a [u8],
    pub path: &'a [u8],
    // The k witness records, one after the other.
    pub witnesses: &'a [u8],
}
