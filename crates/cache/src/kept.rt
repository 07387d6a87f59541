// An answer that a cache keeps.
use header::cell::{Axis, Cell};

// The longest path and the longest share.
pub use header::lengths::{PATH_ROOM, SHARE_ROOM};

// How many answers a cache keeps.
pub(crate) const PLACES: usize = 8;

// The cell that was asked for, and the evidence that was shown there. There is no heap: share and path have the room of the longest
// ones, and as many bytes count as the block's have.
#[derive(Clone, Copy)]
pub struct Kept {
    pub cell: Cell,
    pub axis: Axis,
    pub share: [u8; SHARE_ROOM],
    pub path: [u8; PATH_ROOM],
}
