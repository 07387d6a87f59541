// The store, and what it shows.
ghost use Rattle.filestore.specs.Files.{file_meaning};
ghost use Rattle.std.specs.Prelude.{◌≡◌};

use blockfile::file::BlockFile;
use header::cell::{Axis, Cell};
use store::refusal::StoreRefusal;
use store::store::Store;

// A lent block file. It was opened before, so the store is in order from the start.
#[derive(Drop)]
pub struct FileStore<'a> {
    file: &'a BlockFile<'a>,
}

impl<'a> FileStore<'a> {
    // The store means what the file means.
    pub fn new(file: &'a BlockFile<'a>) -> FileStore<'a>
        ensures { file_meaning result.file.now ≡ file_meaning file.now }
    {
        FileStore { file }
    }
}

impl Store for FileStore<'_> {
    ghost meaning = { λ f. file_meaning f.file.now };

    ghost ordered = { λ _. Unit {0} };

    ghost bounded = { λ f. (f.file.now.header.width, f.file.now.header.size) };

    fn half_width(&self) -> usize {
        self.file.header().k as usize
    }

    fn share_size(&self) -> usize {
        self.file.header().s as usize
    }

    fn show(
        &mut self,
        cell: Cell,
        share: &mut [u8],
        path: &mut [u8],
    ) -> Result<Option<Axis>, StoreRefusal> {
        self.admit(cell, share, path)?;
        let Some(found) = self.file.evidence(cell) else {
            return Ok(None);
        };
        share.copy_from_slice(found.share);
        path.copy_from_slice(found.path);
        Ok(Some(found.axis))
    }
}
