//! Images of the disks that a script left, each changed in one place, and what opening them says.
//!
//! Of each of the eight disks the table has a file that is cut, its header's zeros, magic, version and kind changed, a
//! frame that is cut or too long, a body that is none of its log, one that isn't allowed at its place, and a disk that
//! fails in the first call; of each pair both sides with one number. A side that isn't the chosen one is harmed in its
//! header alone, as its frames aren't read. The harm Unsafe is told of the chosen side of the config log and of the
//! transaction log, and of no other disk:
//! - `config_a`, `config_b`: a record is stamped past the end of the transaction list.
//! - `txn`: a commit doesn't go on where its part ended, is an older task's behind a standing fence, or has no batch,
//!   for which the changed disk is `batches`.
//! - `offsets_a`, `offsets_b`: never, since where a part ends is what the transaction list says, and a record or a
//!   marker that doesn't fit that list isn't allowed at its place, which is Content.
//! - `status_a`, `status_b`: never, since nothing that makes a state safe speaks of what was reported.
//! - `batches`: never, since a batch without a commit is one of a transaction that is open or was aborted, and a commit
//!   without a batch is told at that commit.
use crate::cluster::{End, Left, play};
use crate::eight::{disk_at, empty_disks, images_of, put_disk};
use cw_disk::{Disks, MemDisk, Way, path_of};
use cw_types::{DiskName, read_u64};
use std::alloc::{AllocError, Global};
use std::io;
use std::rt::Clock;
use std::sync::Wait;
use std::thread::Threads;

// A script's producer commits once.
const COMMIT: &[u8] = b"init 0\ncommit 0 1 0 5\n";

// A source is read to its end. Each log of two sides is on side a, and side b isn't made.
const UNCOMPACTED: &[u8] =
    b"spawn\nsettle 100\nrest 0 POST /connectors {\"name\":\"a\",\"config\":{\"connector.class\":\
\"FileStreamSource\",\"file\":\"orders\",\"topic\":\"t\"}}\nsettle 1000\n";

// Each log of two sides is compacted once, so it is on side b, with number 2.
const COMPACTIONS: &[u8] = b"compact config\ncompact offsets\ncompact status\n";

/// Eight empty disks, and what three scripts left of such.
#[derive(Drop)]
pub(crate) struct Bases {
    empty: Disks<MemDisk>,
    commit: Disks<MemDisk>,
    uncompacted: Disks<MemDisk>,
    source: Disks<MemDisk>,
}

/// Plays the three scripts.
pub(crate) fn play_bases<R: AllocGlobal + Threads + Wait + Clock + Sync>(
    rt: &R,
) -> Result<Bases, AllocError> {
    let sources = play_sources(rt)?;
    match disks_behind(rt, empty_disks(rt.alloc()), COMMIT) {
        Ok(commit) => Ok(bases_of(rt.alloc(), commit, sources)),
        Err(fault) => {
            drop(sources);
            Err(fault)
        }
    }
}

fn bases_of(alloc: Global, commit: Disks<MemDisk>, sources: Sources) -> Bases {
    let Sources {
        uncompacted,
        source,
    } = sources;
    Bases {
        empty: empty_disks(alloc),
        commit,
        uncompacted,
        source,
    }
}

// What a source leaves that is read to its end: each log on side a, and each that is compacted on side b.
#[derive(Drop)]
struct Sources {
    uncompacted: Disks<MemDisk>,
    source: Disks<MemDisk>,
}

fn play_sources<R: AllocGlobal + Threads + Wait + Clock + Sync>(
    rt: &R,
) -> Result<Sources, AllocError> {
    let uncompacted = disks_behind(rt, empty_disks(rt.alloc()), UNCOMPACTED)?;
    match compacted(rt, &uncompacted) {
        Ok(source) => Ok(Sources {
            uncompacted,
            source,
        }),
        Err(fault) => {
            drop(uncompacted);
            Err(fault)
        }
    }
}

// The disks behind a script that is played over these.
fn disks_behind<R: AllocGlobal + Threads + Wait + Clock + Sync>(
    rt: &R,
    disks: Disks<MemDisk>,
    script: &[u8],
) -> Result<Disks<MemDisk>, AllocError> {
    let Left { disks, output, .. } = play(rt, disks, script)?;
    drop(output);
    Ok(disks)
}

// The disks behind the compactions, played over what these hold.
fn compacted<R: AllocGlobal + Threads + Wait + Clock + Sync>(
    rt: &R,
    disks: &Disks<MemDisk>,
) -> Result<Disks<MemDisk>, AllocError> {
    disks_behind(rt, images_of(rt.alloc(), disks, Way::AsRead)?, COMPACTIONS)
}

// Which disks are changed.
#[derive(Clone, Copy, Drop)]
enum Base {
    // Empty ones.
    Empty,
    // A script's producer commits once.
    Commit,
    // A source is read to its end.
    Uncompacted,
    // The same, and each log of two sides is compacted.
    Source,
}

// A change of one disk.
#[derive(Clone, Copy, Drop)]
enum Change {
    // Only so many bytes are left.
    Cut(usize),
    // A byte is another one.
    Byte(usize, u8),
    // Each call from this number on fails.
    Fuse(u64),
}

// An image: what a script left, with one disk changed.
#[derive(Clone, Copy, Drop)]
struct Image {
    base: Base,
    at: DiskName,
    change: Change,
}

// The image that a text names: a base, a disk, and its change by one or two numbers.
fn image_named(text: &str) -> Option<Image> {
    let mut words = text.split(' ');
    let base = base_named(words.next()?)?;
    let at = disk_named(words.next()?)?;
    let change = words.next()?;
    let number = read_u64(words.next()?.as_bytes())?;
    let change = change_named(change, number, words.next())?;
    Some(Image { base, at, change })
}

fn base_named(word: &str) -> Option<Base> {
    match word {
        "empty" => Some(Base::Empty),
        "commit" => Some(Base::Commit),
        "uncompacted" => Some(Base::Uncompacted),
        "source" => Some(Base::Source),
        _ => None,
    }
}

fn disk_named(word: &str) -> Option<DiskName> {
    match word {
        "config_a" => Some(DiskName::ConfigA),
        "config_b" => Some(DiskName::ConfigB),
        "offsets_a" => Some(DiskName::OffsetsA),
        "offsets_b" => Some(DiskName::OffsetsB),
        "status_a" => Some(DiskName::StatusA),
        "status_b" => Some(DiskName::StatusB),
        "txn" => Some(DiskName::Txn),
        "batches" => Some(DiskName::Batches),
        _ => None,
    }
}

fn change_named(word: &str, number: u64, value: Option<&str>) -> Option<Change> {
    match word {
        "cut" => Some(Change::Cut(usize::try_from(number).ok()?)),
        "byte" => {
            let place = usize::try_from(number).ok()?;
            let value = read_u64(value?.as_bytes())?;
            Some(Change::Byte(place, u8::try_from(value).ok()?))
        }
        "fuse" => Some(Change::Fuse(number)),
        _ => None,
    }
}

// A disk with the bytes of another, changed.
fn changed(alloc: Global, disk: &MemDisk, change: Change) -> Result<MemDisk, AllocError> {
    let mut bytes = disk.bytes().to_vec(alloc)?;
    let mut fuse = u64::MAX;
    match change {
        Change::Cut(length) => bytes.truncate(length),
        Change::Byte(place, value) => {
            if let Some(byte) = bytes.get_mut(place) {
                *byte = value;
            }
        }
        Change::Fuse(number) => fuse = number,
    }
    MemDisk::new(alloc, bytes, Vec::new(alloc), fuse)
}

// The disks of an image.
fn disks_of(alloc: Global, bases: &Bases, image: Image) -> Result<Disks<MemDisk>, AllocError> {
    let base = match image.base {
        Base::Empty => &bases.empty,
        Base::Commit => &bases.commit,
        Base::Uncompacted => &bases.uncompacted,
        Base::Source => &bases.source,
    };
    let disk = changed(alloc, disk_at(base, image.at), image.change)?;
    let mut disks = images_of(alloc, base, Way::AsRead)?;
    put_disk(&mut disks, image.at, disk);
    Ok(disks)
}

/// Opens the image that a line names, with the script that stands behind a `;` or else an empty one, and says what
/// comes of it.
pub(crate) fn open_image<R: AllocGlobal + Print + Threads + Wait + Clock + Sync>(
    rt: &R,
    bases: &Bases,
    line: &str,
) -> io::Result<()> {
    let (text, script) = line.split_once("; ").unwrap_or((line, ""));
    match image_named(text) {
        Some(image) => open_named(rt, bases, image, script.as_bytes()),
        None => println!(rt; "no image: {line}"),
    }
}

// Opens an image with a script, and prints what comes of it.
fn open_named<R: AllocGlobal + Print + Threads + Wait + Clock + Sync>(
    rt: &R,
    bases: &Bases,
    image: Image,
    script: &[u8],
) -> io::Result<()> {
    let disks = disks_of(rt.alloc(), bases, image)?;
    let left = play(rt, disks, script)?;
    let told = tell(rt, &left);
    drop(left);
    told
}

// What a run says that opened an image.
fn tell<R: Print>(rt: &R, left: &Left) -> io::Result<()> {
    match left.end {
        End::Done => tell_answers(rt, left.output.bytes()),
        End::Damaged(disk, at, harm) => {
            let path = path_of(disk);
            println!(rt; "{path} {at} {harm:?}")
        }
        End::StoreFault(disk, count) => tell_fault(rt, disk, count, left.output.bytes()),
        _ => println!(rt; "another end"),
    }
}

fn tell_answers<R: Print>(rt: &R, answers: &[u8]) -> io::Result<()> {
    match str::from_utf8(answers) {
        Ok("") => println!(rt; "Done"),
        Ok(text) => println!(rt; "Done, {}", text.trim_end()),
        Err(_) => println!(rt; "Done, with an answer that is no text"),
    }
}

// What is told of a disk that failed, and whether there is an answer.
fn tell_fault<R: Print>(rt: &R, disk: DiskName, count: u64, answers: &[u8]) -> io::Result<()> {
    let path = path_of(disk);
    if answers.is_empty() {
        println!(rt; "{path} StoreFault {count}, no answer")
    } else {
        println!(rt; "{path} StoreFault {count}, behind an answer")
    }
}
