// The header of a block.
ghost use Rattle.erasure.specs.Limits.{ok_size, ok_width};
ghost use Rattle.std.specs.Prelude.{◌≡◌, true};

use hash::limits::DIGEST_LEN;

// Every value has an allowed k and an allowed share size. The kinds may be any byte, also that of a hash or a code that nobody here
// knows: relays pass such blocks on.
#[derive(Clone, Copy)]
pub struct Header {
    // The half-width.
    pub k: u16,
    // The share size in bytes.
    pub s: u16,
    pub hash_kind: u8,
    pub code_kind: u8,
    pub data_root: [u8; DIGEST_LEN],
    ghost width: { ok_width k ≡ true },
    ghost size: { ok_size s ≡ true },
}
