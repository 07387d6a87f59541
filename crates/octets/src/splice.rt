// Writing a part into a buffer.
ghost use Rattle.octets.specs.Splice.{room_at, spliced};
ghost use Rattle.std.specs.Prelude.{◌≡◌, length};
ghost use Rattle.std.specs.Result.{is_ok};

use crate::misfit::Misfit;

// Writes `part` over the bytes of `out` from place `at` on. Where it does not fit whole, it writes nothing.
pub fn splice(out: &mut [u8], at: usize, part: &[u8]) -> Result<(), Misfit>
    ensures answer { is_ok result ≡ room_at at (length part.now) (length out.old) }
    ensures written { out.new ≡ spliced at part.now out.old }
{
    if at > out.len() || part.len() > out.len() - at {
        return Err(Misfit);
    }
    out[at..at + part.len()].copy_from_slice(part);
    Ok(())
}
