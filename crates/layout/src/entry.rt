// The entries of a row of digests, which stand one after the other.
ghost use Rattle.std.specs.Prelude.{◌≡◌, ◌&&◌, length, true, false, MatchOption};
ghost use Rattle.std.specs.Result.{is_ok};
ghost use Rattle.layout.specs.Answers.{copied, has_entry, joined, put_at};
ghost use Rattle.merkle.specs.Climb.{slot};

use climbs::node::join;
use hash::digest::Hash;
use hash::limits::DIGEST_LEN;
use octets::misfit::Misfit;
use octets::splice::splice;

// Entry `i` of a row, or none where the row has no such entry.
pub fn entry(row: &[u8], i: usize) -> Option<&[u8; DIGEST_LEN]>
    ensures { MatchOption result (has_entry i (length row.now) ≡ false) (λ node. (has_entry i (length row.now) ≡ true) × (node.now ≡ slot i row.now)) }
{
    let (entries, _) = row.as_chunks();
    entries.get(i)
}

// Writes a digest as entry `i` of a row. Where the row has no such entry, it refuses and writes nothing.
pub fn put_entry(row: &mut [u8], i: usize, node: &[u8; DIGEST_LEN]) -> Result<(), Misfit>
    ensures answer { is_ok result ≡ has_entry i (length row.old) }
    ensures written { row.new ≡ put_at i node.now row.old }
{
    if i >= row.len() / DIGEST_LEN {
        return Err(Misfit);
    }
    splice(row, DIGEST_LEN * i, node)
}

// Copies entry `from` of a row to entry `to` of another. Where there is no such entry, it refuses and writes nothing.
pub fn copy_entry(row: &[u8], from: usize, out: &mut [u8], to: usize) -> Result<(), Misfit>
    ensures answer { is_ok result ≡ (has_entry from (length row.now) && has_entry to (length out.old)) }
    ensures written { out.new ≡ copied from row.now to out.old }
{
    put_entry(out, to, entry(row, from).ok_or(Misfit)?)
}

// Writes the node over entries `a` and `b` of a row as entry `to` of it. Where there is no such entry, it refuses and writes nothing.
pub fn join_entries<H: Hash>(row: &mut [u8], a: usize, b: usize, to: usize) -> Result<(), Misfit>
    ensures answer { is_ok result ≡ (has_entry a (length row.old) && has_entry b (length row.old) && has_entry to (length row.old)) }
    ensures written { row.new ≡ joined H.meaning a b to row.old }
{
    let node = join::<H>(entry(row, a).ok_or(Misfit)?, entry(row, b).ok_or(Misfit)?);
    put_entry(row, to, &node)
}
