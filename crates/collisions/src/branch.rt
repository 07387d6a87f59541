// What two climbs are compared by, and where what is found is written.

// The value of a leaf, and the path by which it climbs.
#[derive(Clone, Copy)]
pub struct Branch<'a> {
    pub value: &'a [u8],
    pub path: &'a [u8],
}

// A buffer for each of two climbs.
#[derive(Drop)]
pub struct Pair<'a> {
    pub a: &'a mut [u8],
    pub b: &'a mut [u8],
}
