// The store and its opening.
ghost use Rattle.std.specs.Prelude.{◌≡◌, ℕ, true, [], length};
ghost use Rattle.octets.specs.Outcome.{outcome};
ghost use Rattle.octets.specs.Written.{written};
ghost use Rattle.erasure.specs.Limits.{ok_size, ok_width};
ghost use Rattle.memory.specs.Images.{LaidOut, image_held, image_meaning, open_outcome};
ghost use Rattle.store.specs.Refusals.{told};
ghost use Rattle.store.specs.Showing.{Untouched};

use crate::read::{put_path, put_share};
use header::cell::{Axis, Cell};
use header::header::Header;
use store::question::shape_of;
use store::refusal::StoreRefusal;
use store::store::Store;

// A lent image, and a header of its k and share size. Before it is opened it has no bytes; no image is empty, so that says the same as
// an Option would.
#[derive(Drop)]
pub struct Memory<'a> {
    image: &'a [u8],
    shape: Header,
    ghost whole: { image_held shape.k shape.s (length image.now) ≡ true },
}

impl<'a> Memory<'a> {
    // A store that shows nothing, to be opened. Its k and its share size are 1.
    pub fn empty() -> Memory<'a>
        ensures image { result.image.now ≡ [] }
        ensures shape { (result.shape.k ≡ 1) × (result.shape.s ≡ 1) }
    {
        Memory {
            image: &[],
            shape: Header::smallest(),
        }
    }

    // Lies over an image of this k and this share size from now on. It checks nothing of the image but its length.
    pub fn open_image(&mut self, k: usize, s: usize, image: &'a [u8]) -> Result<(), StoreRefusal>
        ensures answer { outcome told result ≡ open_outcome k s (length image.now) }
        ensures opened { image_meaning self.new.image.now self.new.shape.k self.new.shape.s ≡ written (open_outcome k s (length image.now)) (image_meaning image.now k s) (image_meaning self.old.image.now self.old.shape.k self.old.shape.s) }
        ensures refused { Untouched (open_outcome k s (length image.now)) self.old self.new }
        ensures laid { LaidOut k s image.now }
    {
        let shape = shape_of(k, s)?;
        if image.len() != shape.lengths().image {
            return Err(StoreRefusal::WrongLength);
        }
        *self = Memory { image, shape };
        Ok(())
    }
}

impl Store for Memory<'_> {
    ghost meaning = { λ m. image_meaning m.image.now m.shape.k m.shape.s };

    ghost ordered = { λ _. Unit {0} };

    ghost bounded = { λ m. (m.shape.width, m.shape.size) };

    fn half_width(&self) -> usize {
        self.shape.k as usize
    }

    fn share_size(&self) -> usize {
        self.shape.s as usize
    }

    fn show(
        &mut self,
        cell: Cell,
        share: &mut [u8],
        path: &mut [u8],
    ) -> Result<Option<Axis>, StoreRefusal> {
        self.admit(cell, share, path)?;
        if self.image.is_empty() {
            return Ok(None);
        }
        put_share(&self.shape, self.image, cell, share);
        put_path(&self.shape, self.image, cell, path);
        Ok(Some(Axis::Row))
    }
}
