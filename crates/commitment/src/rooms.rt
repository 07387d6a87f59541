// Room for the trees of the largest block. The library allocates nothing, so a smaller block's take the front of as much. It is room in
// bytes, since a tree that is laid out is bytes in buffers and images, and the functions that grow and cut trees take those.

// The bytes of the tree of its longest line, laid out.
pub const LINE_TREE_ROOM: usize = 4064;

// Those of the data tree over its roots.
pub const DATA_TREE_ROOM: usize = 8160;
