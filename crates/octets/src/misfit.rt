// How a call answers that only looks at sizes.
use thiserror::Error;

// What is lent has not the sizes that the call takes. Nothing was written.
#[derive(Clone, Copy, PartialEq, Eq, Debug, Error)]
#[error("the sizes do not fit")]
pub struct Misfit;
