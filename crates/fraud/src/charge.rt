// A proof that was read, in the block that it was read for.
ghost use Rattle.fraudproof.specs.Form.{Formed};
ghost use Rattle.header.specs.Fields.{fields_of};

use fraudproof::proof::Proof;
use header::header::Header;

// What the proof charges the block with is still to be judged.
#[derive(Clone, Copy)]
pub struct Charge<'a> {
    pub header: &'a Header,
    pub proof: Proof<'a>,
    // As reading leaves it: its values are in range, and its parts have the block's lengths.
    pub ghost formed: { Formed (fields_of header.now) proof },
}
