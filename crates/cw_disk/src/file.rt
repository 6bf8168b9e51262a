// The trusted edge: a disk that is a file of the system. It tells no content and no image, so no
// theorem rests on what the system does with it; that a real file keeps the disk model is believed.
ghost use Rattle.std.specs.Prelude.{◌≡◌, ◌≤◌, List, ℕ, None, Option, OnOk, OnErr, IfOk, IsErr, MatchResult, length};
ghost use Rattle.cw_types.specs.Faults.{Rose};
ghost use Rattle.cw_disk.specs.Files.{path_text, AreNamed, AreFresh};
ghost use Rattle.cw_disk.specs.Untold.{untold};
ghost use Rattle.cw_types.specs.declared.logs.DiskName.{DiskName};

use crate::{Disk, Disks, Failed, Memory};
use cw_types::DiskName;
use std::fs::{Files, OpenFile, OpenOptions};
use std::io::ErrorKind;
use std::os::unix::fs::FileExt;
use std::{fs, io};

// The folder of the eight files.
const FOLDER: &str = "connect-data";

/// A disk that is the file of this name in the folder `connect-data`. Its first call other than
/// `faults` and `reserve` makes folder and file where they are missing. Each `Err` of the system raises
/// its count. It tells no content. A folder or file that it made is made durable by a sync of its folder.
#[derive(Drop)]
pub struct FileDisk<R: Files> {
    files: R,
    name: DiskName,
    file: Option<R::File>,
    count: u64,
    room: u64,
}

/// Where the file of a disk lies.
pub fn path_of(name: DiskName) -> &'static str
    ensures { result.now ≡ path_text name }
{
    match name {
        DiskName::ConfigA => "connect-data/config_a",
        DiskName::ConfigB => "connect-data/config_b",
        DiskName::OffsetsA => "connect-data/offsets_a",
        DiskName::OffsetsB => "connect-data/offsets_b",
        DiskName::StatusA => "connect-data/status_a",
        DiskName::StatusB => "connect-data/status_b",
        DiskName::Txn => "connect-data/txn",
        DiskName::Batches => "connect-data/batches",
    }
}

/// No two disks are one file.
pub fn paths_differ()
    ensures { (one other : DiskName) → path_text one ≡ path_text other → one ≡ other }
{}

// Makes the folder where it is missing, and then makes it durable that it is there.
fn make_folder<R: Files>(files: &R) -> io::Result<()> {
    match fs::create_dir(files, FOLDER) {
        Ok(()) => sync_folder(files, "."),
        Err(fault) if fault.kind() == ErrorKind::AlreadyExists => Ok(()),
        Err(fault) => Err(fault),
    }
}

// Makes it durable which files are in a folder.
fn sync_folder<R: Files>(files: &R, folder: &str) -> io::Result<()> {
    OpenOptions::new()
        .read(true)
        .open(files, folder)?
        .sync_all()
}

// Makes folder and file where they are missing, and opens the file.
fn open_file<R: Files>(files: &R, path: &str) -> io::Result<R::File> {
    make_folder(files)?;
    let file = OpenOptions::new()
        .read(true)
        .write(true)
        .create(true)
        .open(files, path)?;
    sync_folder(files, FOLDER)?;
    Ok(file)
}

// As much of `into` as the file has from `at` on.
fn get<F: FileExt + OpenFile>(file: &F, at: u64, into: &mut [u8]) -> io::Result<usize>
    ensures { IfOk result (λ n. n ≤ length into.old) }
{
    let there = file.metadata()?.len().saturating_sub(at);
    let n = there.min(into.len() as u64) as usize;
    file.read_exact_at(&mut into[..n], at)?;
    Ok(n)
}

impl<R: Files> FileDisk<R> {
    /// The disk of this name. Nothing is opened yet.
    pub fn new(files: R, name: DiskName) -> FileDisk<R>
        ensures name { result.name ≡ name }
        ensures count { result.count ≡ 0 }
    {
        FileDisk {
            files,
            name,
            file: None,
            count: 0,
            room: 0,
        }
    }
}

// A fault is counted.
fn counted<T>(count: &mut u64, done: io::Result<T>) -> Result<T, Failed>
    ensures same { MatchResult done (λ x. result ≡ Ok x) (λ _. IsErr result) }
    ensures later { count.old ≤ count.new }
    ensures cause { OnErr result (Rose count.old count.new) }
{
    match done {
        Ok(value) => Ok(value),
        Err(_) => {
            *count = count.saturating_add(1);
            Err(Failed)
        }
    }
}

// The open file, which it opens where there is none.
fn opened<R: Files>(
    files: &R,
    name: DiskName,
    file: &mut Option<R::File>,
    count: &mut u64,
) -> Result<R::File, Failed>
    ensures later { count.old ≤ count.new }
    ensures cause { OnErr result (Rose count.old count.new) }
{
    if let Some(file) = file.take() {
        return Ok(file);
    }
    counted(count, open_file(files, path_of(name)))
}

impl<R: Files> Disk for FileDisk<R>
where
    R::File: FileExt,
{
    ghost holds = { λ d. None };

    ghost may_leave = { λ d image. ⊥ };

    ghost moment = { λ d. 0 };

    ghost left_since = { λ d t image. ⊥ };

    ghost count = { λ d. d.count };

    ghost reserved = { λ d. d.room };

    ghost plan = { λ d. None };

    ghost as_read = { λ d file is. untold file is };

    ghost counts_now = { λ d t image le now. now };

    ghost only_now = { λ d image left. left };

    fn faults(&self) -> u64 {
        self.count
    }

    fn len(&mut self) -> Result<u64, Failed> {
        let file = opened(&self.files, self.name, &mut self.file, &mut self.count)?;
        let length = file.metadata().map(|found| found.len());
        self.file = Some(file);
        counted(&mut self.count, length)
    }

    fn read_at(&mut self, at: u64, into: &mut [u8]) -> Result<usize, Failed> {
        let file = opened(&self.files, self.name, &mut self.file, &mut self.count)?;
        let done = get(&file, at, into);
        self.file = Some(file);
        counted(&mut self.count, done)
    }

    fn reserve(&mut self, to: u64) -> Result<(), Memory> {
        self.room = self.room.max(to);
        Ok(())
    }

    fn write_at(&mut self, at: u64, from: &[u8]) -> Result<(), Failed> {
        let file = opened(&self.files, self.name, &mut self.file, &mut self.count)?;
        let done = file.write_all_at(from, at);
        self.file = Some(file);
        counted(&mut self.count, done)
    }

    fn cut(&mut self, to: u64) -> Result<(), Failed> {
        let file = opened(&self.files, self.name, &mut self.file, &mut self.count)?;
        let done = file.set_len(to);
        self.file = Some(file);
        counted(&mut self.count, done)
    }

    fn sync(&mut self) -> Result<(), Failed> {
        let file = opened(&self.files, self.name, &mut self.file, &mut self.count)?;
        let done = file.sync_data();
        self.file = Some(file);
        counted(&mut self.count, done)
    }
}

impl<'r, R: Files> Disks<FileDisk<&'r R>> {
    /// The eight files in the folder `connect-data`. Nothing is opened yet.
    pub fn in_folder(files: &'r R) -> Disks<FileDisk<&'r R>>
        ensures names { AreNamed (λ disk. disk.name) result }
        ensures counts { AreFresh (λ disk. disk.count) result }
    {
        Disks {
            config_a: FileDisk::new(files, DiskName::ConfigA),
            config_b: FileDisk::new(files, DiskName::ConfigB),
            offsets_a: FileDisk::new(files, DiskName::OffsetsA),
            offsets_b: FileDisk::new(files, DiskName::OffsetsB),
            status_a: FileDisk::new(files, DiskName::StatusA),
            status_b: FileDisk::new(files, DiskName::StatusB),
            txn: FileDisk::new(files, DiskName::Txn),
            batches: FileDisk::new(files, DiskName::Batches),
        }
    }
}
