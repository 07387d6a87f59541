// The cache.
ghost use Rattle.std.specs.Prelude.{◌≡◌, ℕ, ◌≤◌, length, replicate, None, Ok};
ghost use Rattle.octets.specs.Outcome.{outcome};
ghost use Rattle.cache.specs.Keeping.{Brings, CacheOrder, Unasked, checked, count_after, header_fits, kept_after, kept_for, places};
ghost use Rattle.header.specs.Fields.{fields_of};
ghost use Rattle.store.specs.Refusals.{told};
ghost use Rattle.store.specs.Showing.{Shows, Untouched, asked};

use crate::keeping::{find, keep, one_more};
use crate::kept::{Kept, PLACES};
use hash::digest::Hash;
use header::cell::{Axis, Cell};
use header::header::Header;
use header::lengths::{PATH_ROOM, SHARE_ROOM};
use std::marker::PhantomData;
use store::refusal::StoreRefusal;
use store::store::Store;
use store::taking::take_evidence;

// A store below, and the header under which its answers are checked.
#[derive(Drop)]
pub struct Cache<H, S> {
    below: S,
    header: Header,
    // The answers that came last, in the order of their arrival. There is no heap, so their number is fixed.
    kept: [Option<Kept>; PLACES],
    // How many questions went below.
    count: u64,
    hash: PhantomData<H>,
}

// Whether the header has the k and the share size of the store below, and the kind of the hash.
fn header_fits<H: Hash, S: Store>(h: &Header, below: &S) -> bool
    ensures { result ≡ header_fits H.Hash.KIND (fields_of h.now) (S.Store.meaning below.now) }
{
    h.k as usize == below.half_width()
        && (h.s as usize == below.share_size() && h.hash_kind == H::KIND)
}

// Asks the store below for a cell, with room of its own for a share and a path of these lengths, which were admitted. There is no
// heap, so the room is that of the largest. Gives the answer to be kept.
fn ask_below<H: Hash, S: Store>(
    h: &Header,
    below: &mut S,
    cell: Cell,
    share_len: usize,
    path_len: usize,
) -> Option<Kept>
    requires room { (share_len ≤ 512) × (path_len ≤ 416) }
    requires free { asked (S.Store.meaning below.old).k (S.Store.meaning below.old).s cell.row cell.col share_len path_len ≡ Ok tt }
    ensures { S.Store.ordered below.old → Brings H.Hash.meaning H.Hash.KIND (fields_of h.now) (S.Store.meaning below.old) (S.Store.meaning below.new) (S.Store.ordered below.new) cell.row cell.col result }
{
    let fits = header_fits::<H, S>(h, below);
    let mut share = [0u8; SHARE_ROOM];
    let mut path = [0u8; PATH_ROOM];
    let taken = take_evidence::<H, S>(
        h,
        below,
        cell,
        &mut share[0..share_len],
        &mut path[0..path_len],
    );
    let axis = taken?;
    fits.then_some(Kept {
        cell,
        axis,
        share,
        path,
    })
}

impl<H: Hash, S: Store> Cache<H, S> {
    // A cache over a store, under a header. It keeps nothing yet.
    pub fn new(header: Header, below: S) -> Self
        ensures below { result.below ≡ below }
        ensures header { result.header ≡ header }
        ensures empty { places (S.Store.meaning below).k (S.Store.meaning below).s result.kept ≡ replicate 8 None }
        ensures none { result.count ≡ 0 }
        ensures order { S.Store.ordered below → CacheOrder (S.Store.ordered result.below) (checked H.Hash.meaning H.Hash.KIND (fields_of result.header) (S.Store.meaning result.below)) (places (S.Store.meaning result.below).k (S.Store.meaning result.below).s result.kept) }
    {
        Cache {
            below,
            header,
            kept: [None; PLACES],
            count: 0,
            hash: PhantomData,
        }
    }

    // How many questions went below. It stops at its largest value.
    pub fn count(&self) -> u64
        ensures { result ≡ self.now.count }
    {
        self.count
    }
}

impl<H: Hash, S: Store> Store for Cache<H, S> {
    ghost meaning = { λ c. checked H.Hash.meaning H.Hash.KIND (fields_of c.header) (S.Store.meaning c.below) };

    ghost ordered = { λ c. CacheOrder (S.Store.ordered c.below) (checked H.Hash.meaning H.Hash.KIND (fields_of c.header) (S.Store.meaning c.below)) (places (S.Store.meaning c.below).k (S.Store.meaning c.below).s c.kept) };

    ghost bounded = { λ c. S.Store.bounded c.below };

    fn half_width(&self) -> usize {
        self.below.half_width()
    }

    fn share_size(&self) -> usize {
        self.below.share_size()
    }

    // A kept cell is answered from what is kept, and nothing changes. Every other question that is not refused goes below and is
    // counted; what it brings is shown and kept.
    fn show(
        &mut self,
        cell: Cell,
        share: &mut [u8],
        path: &mut [u8],
    ) -> Result<Option<Axis>, StoreRefusal>
        ensures shown { CacheOrder (S.Store.ordered self.old.below) (checked H.Hash.meaning H.Hash.KIND (fields_of self.old.header) (S.Store.meaning self.old.below)) (places (S.Store.meaning self.old.below).k (S.Store.meaning self.old.below).s self.old.kept) → Shows (checked H.Hash.meaning H.Hash.KIND (fields_of self.old.header) (S.Store.meaning self.old.below)) (checked H.Hash.meaning H.Hash.KIND (fields_of self.new.header) (S.Store.meaning self.new.below)) (CacheOrder (S.Store.ordered self.new.below) (checked H.Hash.meaning H.Hash.KIND (fields_of self.new.header) (S.Store.meaning self.new.below)) (places (S.Store.meaning self.new.below).k (S.Store.meaning self.new.below).s self.new.kept)) cell.row cell.col share.old path.old (outcome told result) share.new path.new }
        ensures refused { Untouched (asked (S.Store.meaning self.old.below).k (S.Store.meaning self.old.below).s cell.row cell.col (length share.old) (length path.old)) self.old self.new }
        ensures counted { self.new.count ≡ count_after (asked (S.Store.meaning self.old.below).k (S.Store.meaning self.old.below).s cell.row cell.col (length share.old) (length path.old)) (kept_for cell.row cell.col (places (S.Store.meaning self.old.below).k (S.Store.meaning self.old.below).s self.old.kept)) self.old.count }
        ensures kept { CacheOrder (S.Store.ordered self.old.below) (checked H.Hash.meaning H.Hash.KIND (fields_of self.old.header) (S.Store.meaning self.old.below)) (places (S.Store.meaning self.old.below).k (S.Store.meaning self.old.below).s self.old.kept) → places (S.Store.meaning self.old.below).k (S.Store.meaning self.old.below).s self.new.kept ≡ kept_after (asked (S.Store.meaning self.old.below).k (S.Store.meaning self.old.below).s cell.row cell.col (length share.old) (length path.old)) (kept_for cell.row cell.col (places (S.Store.meaning self.old.below).k (S.Store.meaning self.old.below).s self.old.kept)) cell.row cell.col ((checked H.Hash.meaning H.Hash.KIND (fields_of self.old.header) (S.Store.meaning self.old.below)).at cell.row cell.col) (places (S.Store.meaning self.old.below).k (S.Store.meaning self.old.below).s self.old.kept) }
        ensures unasked { Unasked (kept_for cell.row cell.col (places (S.Store.meaning self.old.below).k (S.Store.meaning self.old.below).s self.old.kept)) self.old self.new }
    {
        self.admit(cell, share, path)?;
        if let Some(v) = find(&self.kept, cell) {
            v.write(share, path);
            return Ok(Some(v.axis));
        }
        one_more(&mut self.count);
        let brought = ask_below::<H, S>(
            &self.header,
            &mut self.below,
            cell,
            share.len(),
            path.len(),
        );
        let Some(v) = brought else {
            return Ok(None);
        };
        v.write(share, path);
        keep(&mut self.kept, v);
        Ok(Some(v.axis))
    }
}
