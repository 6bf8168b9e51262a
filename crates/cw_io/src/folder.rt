//! THE TRUSTED EDGE: a shelf that is a folder of the system. No clause can say what the system gives, so it
//! tells no content; what is proved is that its names rise and that it counts its faults.
ghost use Rattle.std.specs.Prelude.{◌≡◌, ◌≤◌, None, IfOk, MatchResult};
ghost use Rattle.cw_types.specs.Faults.{Rose};
ghost use Rattle.cw_io.specs.Shelf.{AreRising};

use crate::shelf::{Shelf, ShelfFault};
use cw_types::{Name, NameFault};
use std::collections::BTreeSet;
use std::fs::{DirEntry, Files};
use std::io::{Error, ErrorKind};
use std::path::Path;
use std::{fs, io};

/// A shelf that is a folder. A missing folder is an empty shelf. What isn't a file there is passed over, and
/// so is a file whose name is no [`Name`].
#[derive(Drop)]
pub struct FolderShelf<'r, R: Files + AllocGlobal + Clone + Drop> {
    system: &'r R,
    folder: &'r str,
    faults: u64,
}

impl<'r, R: Files + AllocGlobal + Clone + Drop> FolderShelf<'r, R> {
    /// The shelf that is this folder. Nothing is read yet.
    pub fn new(system: &'r R, folder: &'r str) -> FolderShelf<'r, R>
        ensures { ⟦<FolderShelf<'r, R> as Shelf>⟧.faults result ≡ 0 }
    {
        FolderShelf {
            system,
            folder,
            faults: 0,
        }
    }
}

impl<R: Files + AllocGlobal + Clone + Drop> Shelf for FolderShelf<'_, R> {
    ghost files = { λ _. None };

    ghost faults = { λ s. s.faults };

    fn names(&mut self) -> Result<Vec<Name>, ShelfFault> {
        match names_in(self.system, self.folder) {
            Ok(names) => Ok(names),
            Err(fault) => Err(counted(&mut self.faults, fault)),
        }
    }

    fn load(&mut self, name: &Name) -> Result<Vec<u8>, ShelfFault> {
        match read_file(self.system, self.folder, name) {
            Ok(bytes) => Ok(bytes),
            Err(fault) => Err(counted(&mut self.faults, fault)),
        }
    }
}

// What a fault of the system is to a shelf. Each but want of memory is counted.
fn counted(faults: &mut u64, fault: Error) -> ShelfFault
    ensures later { faults.old ≤ faults.new }
    ensures rose { result ≡ ShelfFault.Failed → Rose faults.old faults.new }
{
    if fault.kind() == ErrorKind::OutOfMemory {
        return ShelfFault::Memory;
    }
    *faults = faults.saturating_add(1);
    ShelfFault::Failed
}

// The names of the files in a folder, in the order of their bytes.
fn names_in<R>(system: &R, folder: &str) -> io::Result<Vec<Name>>
where
    R: Files + AllocGlobal + Clone + Drop,
    ensures { IfOk result (λ names. AreRising names.items) }
{
    let mut names = BTreeSet::new(system.alloc());
    if fs::exists(system, folder)? {
        for entry in fs::read_dir(system, folder)? {
            if let Some(name) = name_of(system, entry)? {
                names.insert(name)?;
            }
        }
    }
    let _ = names.len();
    Ok(names.into_iter().collect(system.alloc())?)
}

// The name of a file in a folder, if it is a file and has one.
fn name_of<R>(system: &R, entry: io::Result<DirEntry<R>>) -> io::Result<Option<Name>>
where
    R: Files + AllocGlobal + Drop,
{
    let entry = match entry {
        Err(fault) if fault.kind() == ErrorKind::InvalidFilename => return Ok(None),
        entry => entry?,
    };
    if !is_file(system, entry.path())? {
        return Ok(None);
    }
    match Name::read(system.alloc(), entry.file_name().as_bytes()) {
        Ok(name) => Ok(Some(name)),
        Err(NameFault::Memory) => Err(Error::from(ErrorKind::OutOfMemory)),
        Err(_) => Ok(None),
    }
}

// Whether there is a file, itself or behind a link.
fn is_file(system: &impl Files, path: Path) -> io::Result<bool> {
    match fs::metadata(system, path) {
        Ok(found) => Ok(found.is_file()),
        Err(fault) if fault.kind() == ErrorKind::NotFound => Ok(false),
        Err(fault) => Err(fault),
    }
}

// The bytes of the file of this name in a folder.
fn read_file<R: Files + AllocGlobal>(system: &R, folder: &str, name: &Name) -> io::Result<Vec<u8>> {
    fs::read(system, path_in(system, folder, name)?)
}

// Where the file of this name lies in a folder. A name with a slash would lead out of it.
pub(crate) fn path_in<R>(system: &R, folder: &str, name: &Name) -> io::Result<String>
where
    R: Files + AllocGlobal,
{
    let Ok(name) = str::from_utf8(name.as_bytes()) else {
        return Err(Error::from(ErrorKind::InvalidFilename));
    };
    if name.contains('/') {
        return Err(Error::from(ErrorKind::InvalidFilename));
    }
    Ok(format!(in system.alloc(); "{folder}/{name}")?)
}
