// The places of given shares.
ghost use Rattle.codes.specs.Code.{Places};
ghost use Rattle.codes.specs.Words.{at};
ghost use Rattle.std.specs.Prelude.{◌<◌, length};

// Places that name a codeword: as many as there are data, all different.
#[derive(Clone, Copy)]
pub(crate) struct Given<'a> {
    pub(crate) places: &'a [u16],
    ghost few: { length places.now < 33 },
    ghost apart: { Places (length places.now) (at places.now) },
}
