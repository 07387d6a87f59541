// What may come next.

// The point that a reader has come to.
#[derive(Clone, Copy, PartialEq, Eq, Debug)]
pub enum Due {
    Header,
    Roots,
    Group,
    // A share, or the end of the group.
    InGroup,
    Claim,
    Witness,
    Nothing,
    // One record of whatever kind.
    Anything,
}
