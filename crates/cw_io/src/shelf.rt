//! Shelves of feeds.
ghost use Rattle.std.specs.Prelude.{◌≡◌, ℕ, ◌≤◌, List, Some, Option, IfOk};
ghost use Rattle.cw_types.specs.Faults.{Rose};
ghost use Rattle.cw_io.specs.Shelf.{Files, names_of, bytes_of, AreRising};

use crate::traits::Failed;
use cw_types::Name;
use std::alloc::AllocError;
use thiserror::Error;

/// Why a shelf gave nothing.
#[derive(Clone, Copy, Debug, PartialEq, Eq, Drop, Error)]
pub enum ShelfFault {
    /// The shelf didn't do what it was asked for. Its count of faults rose.
    #[error("the shelf failed")]
    Failed,
    /// Want of memory.
    #[error("out of memory")]
    Memory,
}

impl From<Failed> for ShelfFault {
    ghost use Rattle.std.specs.Prelude.{◌≡◌};
    ghost use Rattle.cw_io.specs.declared.shelf.ShelfFault.TheVariants.{Failed};

    ghost from_gives = { λ _ fault. fault ≡ Failed };

    fn from(_: Failed) -> ShelfFault {
        ShelfFault::Failed
    }
}

impl From<AllocError> for ShelfFault {
    ghost use Rattle.std.specs.Prelude.{◌≡◌};
    ghost use Rattle.cw_io.specs.declared.shelf.ShelfFault.TheVariants.{Memory};

    ghost from_gives = { λ _ fault. fault ≡ Memory };

    fn from(_: AllocError) -> ShelfFault {
        ShelfFault::Memory
    }
}

/// Where the feeds of file sources are kept, as a folder. Its files stay as they are.
pub trait Shelf {
    /// Its files, where it tells them, each name once and in the order of their bytes.
    ghost files: { Self → Option Files };

    /// How many of its calls failed. A count at the type's end stays there.
    ghost faults: { Self → ℕ };

    /// The names of its files, in the order of their bytes.
    fn names(&mut self) -> Result<Vec<Name>, ShelfFault>
        ensures names { IfOk result (λ names. (f : Files) → files self.old ≡ Some f → names.items ≡ names_of f) }
        ensures rising { IfOk result (λ names. AreRising names.items) }
        ensures kept { files self.new ≡ files self.old }
        ensures later { faults self.old ≤ faults self.new }
        ensures rose { result ≡ Err ShelfFault.Failed → Rose (faults self.old) (faults self.new) };

    /// The bytes of the file of this name. Where there is none, it fails.
    fn load(&mut self, name: &Name) -> Result<Vec<u8>, ShelfFault>
        ensures bytes { IfOk result (λ b. (f : Files) → files self.old ≡ Some f → bytes_of name.now f ≡ Some b.items) }
        ensures kept { files self.new ≡ files self.old }
        ensures later { faults self.old ≤ faults self.new }
        ensures rose { result ≡ Err ShelfFault.Failed → Rose (faults self.old) (faults self.new) };
}
