// One witness of a proof, as parts of the proof's bytes.
ghost use Rattle.header.specs.Lines.{axis_by};
ghost use Rattle.std.specs.Prelude.{◌≡◌};

use crate::line::axis_by;
use header::cell::Axis;

#[derive(Clone, Copy)]
pub struct Witness<'a> {
    // Its place on the claimed line.
    pub place: u16,
    // The proving axis; 0 is the cell's row, 1 its column. It is a byte, as a witness is also made of bytes that nobody has read.
    pub axis: u8,
    pub share: &'a [u8],
    pub path: &'a [u8],
}

impl Witness<'_> {
    // The axis along which it is proved.
    pub fn axis(&self) -> Axis
        ensures { result ≡ axis_by self.now.axis }
    {
        axis_by(self.axis)
    }
}
