// Which k and which share sizes there are.
ghost use Rattle.erasure.specs.Limits.{ok_size, ok_width};
ghost use Rattle.std.specs.Prelude.{◌≡◌};

// Whether k shares can be encoded.
pub fn ok_width(k: usize) -> bool
    ensures { result ≡ ok_width k }
{
    matches!(k, 1 | 2 | 4 | 8 | 16 | 32)
}

// Whether a share can have s bytes.
pub fn ok_size(s: usize) -> bool
    ensures { result ≡ ok_size s }
{
    (1..=512).contains(&s)
}
