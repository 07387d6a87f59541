// Evidence that a file has.
use header::cell::Axis;

// The axis is that of the share's group.
#[derive(Clone, Copy)]
pub struct Found<'a> {
    pub axis: Axis,
    pub share: &'a [u8],
    pub path: &'a [u8],
}
