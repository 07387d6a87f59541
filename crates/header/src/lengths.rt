ghost use Rattle.std.specs.Prelude.{◌≡◌, ◌&&◌, ◌==◌};

// The cells of the largest square.
pub const MOST_CELLS: usize = 4096;

// The longest share.
pub const SHARE_ROOM: usize = 512;

// The longest path of an evidence.
pub const PATH_ROOM: usize = 416;

// The roots of the rows and the columns of the largest square.
pub const ROOTS_ROOM: usize = 4096;

// The lengths of everything that belongs to a block, in bytes but for the first four.
#[derive(Clone, Copy)]
pub struct Lengths {
    // Cells of a line.
    pub width: usize,
    // Levels of a line's tree above its leaves.
    pub depth: usize,
    // Cells of the square, which are also the bytes of a set of marks.
    pub cells: usize,
    // Lines of the square, which are the leaves of the data tree.
    pub lines: usize,
    pub share: usize,
    pub data: usize,
    pub square: usize,
    // One line of shares.
    pub line: usize,
    pub roots: usize,
    pub axis_path: usize,
    pub data_path: usize,
    // The path of an evidence.
    pub path: usize,
    // The trees of a line and of the roots, laid out.
    pub axis_tree: usize,
    pub data_tree: usize,
    pub image: usize,
    // The bodies of records.
    pub header_body: usize,
    pub group_body: usize,
    pub share_body: usize,
    pub claim_body: usize,
    pub witness_body: usize,
    pub proof: usize,
    // Each of the two strings of a collision.
    pub string: usize,
}

impl Lengths {
    // Whether a share and a path of so many bytes are of the block.
    pub fn is_evidence(&self, share: usize, path: usize) -> bool
        ensures { result ≡ (share == self.now.share && path == self.now.path) }
    {
        share == self.share && path == self.path
    }
}
