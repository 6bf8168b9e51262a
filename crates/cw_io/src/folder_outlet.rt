//! THE TRUSTED EDGE: an outlet that is a folder of the system. No clause can say what the system keeps, so it
//! tells no content; what is proved is that it counts its faults.
ghost use Rattle.std.specs.Prelude.{◌≡◌, ◌≤◌, None, OnErr};
ghost use Rattle.cw_types.specs.Faults.{Rose};

use crate::folder::path_in;
use crate::outlet::Outlet;
use crate::traits::Failed;
use cw_types::Name;
use std::fs::{Files, OpenOptions};
use std::io::{Error, ErrorKind, Write};
use std::{fs, io};

/// An outlet that is a folder. Folder and file are made at the first line, where they are missing. The file
/// that was written last stays open. What was written isn't synced.
#[derive(Drop)]
pub struct FolderOutlet<'r, R: Files + AllocGlobal> {
    system: &'r R,
    folder: &'r str,
    last: Option<(Name, R::File)>,
    faults: u64,
}

impl<'r, R: Files + AllocGlobal> FolderOutlet<'r, R> {
    /// The outlet that is this folder. Nothing is made or opened yet.
    pub fn new(system: &'r R, folder: &'r str) -> FolderOutlet<'r, R>
        ensures { ⟦<FolderOutlet<'r, R> as Outlet>⟧.faults result ≡ 0 }
    {
        FolderOutlet {
            system,
            folder,
            last: None,
            faults: 0,
        }
    }

    // Takes the file of this name, open for lines at its end.
    fn opened(&mut self, name: &Name) -> io::Result<(Name, R::File)>
        ensures { self.new.faults ≡ self.old.faults }
    {
        if let Some(last) = self.last.take() {
            if last.0 == *name {
                return Ok(last);
            }
        }
        Ok((name.copy()?, open_in(self.system, self.folder, name)?))
    }

    // Puts a line and its end at the end of the file of this name. A file whose write failed is closed.
    fn put(&mut self, name: &Name, line: &[u8]) -> io::Result<()>
        ensures { self.new.faults ≡ self.old.faults }
    {
        let mut bytes = line.to_vec(self.system.alloc())?;
        bytes.push(b'\n')?;
        let (name, mut file) = self.opened(name)?;
        file.write_all(&bytes)?;
        self.last = Some((name, file));
        Ok(())
    }
}

impl<R: Files + AllocGlobal> Outlet for FolderOutlet<'_, R> {
    ghost files = { λ _. None };

    ghost faults = { λ o. o.faults };

    fn append(&mut self, file: &Name, line: &[u8]) -> Result<(), Failed> {
        match self.put(file, line) {
            Ok(()) => Ok(()),
            Err(_) => {
                self.faults = self.faults.saturating_add(1);
                Err(Failed)
            }
        }
    }
}

// Makes the folder where it is missing.
fn make_folder<R: Files>(system: &R, folder: &str) -> io::Result<()> {
    match fs::create_dir(system, folder) {
        Err(fault) if fault.kind() == ErrorKind::AlreadyExists => Ok(()),
        made => made,
    }
}

// Makes folder and file where they are missing, and opens the file for lines at its end.
fn open_in<R: Files + AllocGlobal>(system: &R, folder: &str, name: &Name) -> io::Result<R::File> {
    make_folder(system, folder)?;
    OpenOptions::new()
        .append(true)
        .create(true)
        .open(system, path_in(system, folder, name)?)
}
