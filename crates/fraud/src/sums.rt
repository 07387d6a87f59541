// Weighted sums of the shares that witnesses show.
ghost use Rattle.std.specs.Prelude.{◌≡◌, ◌*◌, ◌<◌, length};
ghost use Rattle.header.specs.Fields.{fields_of};

use crate::shown::Shown;

// The cells of the codeword through k shares: each is a row of k weights over them.
#[derive(Clone, Copy)]
pub(crate) struct Sums<'a> {
    pub(crate) shown: Shown<'a>,
    pub(crate) rows: &'a [u8],
    ghost few: { (0 < (fields_of shown.header.now).k) × ((fields_of shown.header.now).k < 33) },
    ghost table: { length rows.now ≡ 2 * (fields_of shown.header.now).k * (fields_of shown.header.now).k },
}
