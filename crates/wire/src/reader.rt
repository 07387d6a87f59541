// A reader that goes over a file or a proof, record by record.
ghost use Rattle.std.specs.Prelude.{◌≤◌, length};

// It has come to the record that begins at byte place `at`.
#[derive(Clone, Copy)]
pub struct Reader<'a> {
    pub(crate) bytes: &'a [u8],
    pub(crate) at: usize,
    ghost inside: { at ≤ length bytes.now },
}
