// Taking evidence from any store.
ghost use Rattle.header.specs.Fields.{fields_of};
ghost use Rattle.store.specs.Showing.{Untouched, asked};
ghost use Rattle.store.specs.Taking.{Takes};
ghost use Rattle.std.specs.Prelude.{◌≡◌, length};

use crate::store::Store;
use evidence::check::verified;
use hash::digest::Hash;
use header::cell::{Axis, Cell};
use header::header::Header;

// Asks a store once for a cell. Where what it shows verifies under the header, answers the proving axis; share and path then stand in
// the caller's buffers, since there is no heap to hand them over in.
pub fn take_evidence<H: Hash, S: Store>(
    h: &Header,
    store: &mut S,
    cell: Cell,
    share: &mut [u8],
    path: &mut [u8],
) -> Option<Axis>
    ensures taken { S.Store.ordered store.old → Takes H.Hash.meaning (fields_of h.now) (S.Store.meaning store.old) (S.Store.meaning store.new) (S.Store.ordered store.new) cell.row cell.col share.old path.old result share.new path.new }
    ensures refused { Untouched (asked (S.Store.meaning store.old).k (S.Store.meaning store.old).s cell.row cell.col (length share.old) (length path.old)) store.old store.new }
{
    let axis = store.show(cell, share, path).unwrap_or(None)?;
    let sound = verified::<H>(h, cell, axis, share, path);
    sound.then_some(axis)
}
