// Where the walk over a file has come to.
ghost use Rattle.blockfile.specs.Walk.{due_at};
ghost use Rattle.std.specs.Prelude.{◌≡◌};

use header::cell::Axis;
use wire::due::Due;

#[derive(Clone, Copy, PartialEq, Eq, Debug)]
pub enum Point {
    // Between groups.
    Between,
    // In the group of the line with this index along an axis.
    Inside { axis: Axis, index: u16 },
}

impl Point {
    // What is due there.
    pub(crate) fn due(self) -> Due
        ensures { result ≡ due_at self }
    {
        match self {
            Point::Between => Due::Group,
            Point::Inside { .. } => Due::InGroup,
        }
    }
}
