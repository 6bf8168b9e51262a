//! Objects in memory fail on demand; the adapters pass bytes on.
use cw_io::{
    Failed, FolderOutlet, FolderShelf, Link, MemLink, MemOutlet, MemSource, Outlet, ReaderSource,
    Shelf, ShelfFault, Source, TcpLink, WriterSink, send_all, write_all,
};
use cw_types::Name;
use std::fs;
use std::net::{TcpListener, TcpStream};
use std::test::Fail;

#[test]
fn a_source_in_memory_fails_where_told(rt: HostRuntime) -> Result<(), Fail> {
    let bytes = b"abc".to_vec(rt.alloc())?;
    let mut source = MemSource::new(bytes, 2, vec![in rt.alloc(); 1u64]?);
    let mut piece = [0u8; 4];
    assert_eq!(rt; source.read(&mut piece), Ok(2));
    assert_eq!(rt; source.read(&mut piece), Err(Failed));
    assert_eq!(rt; source.read(&mut piece), Ok(1));
    Ok(())
}

#[test]
fn an_outlet_in_memory_fails_where_told(rt: HostRuntime) -> Result<(), Fail> {
    let name = Name::read(rt.alloc(), b"lines")?;
    let mut outlet = MemOutlet::new(rt.alloc(), vec![in rt.alloc(); 1u64]?);
    assert_eq!(rt; outlet.append(&name, b"ab"), Ok(()));
    assert_eq!(rt; outlet.append(&name, b"cd"), Err(Failed));
    assert_eq!(rt; outlet.append(&name, b"ef"), Ok(()));
    assert_eq!(rt; outlet.file(&name), Some(b"ab\ncef\n".as_slice()));
    Ok(())
}

#[test]
fn a_link_in_memory_fails_in_mid_stream(rt: HostRuntime) -> Result<(), Fail> {
    let alloc = rt.alloc();
    let mut link = MemLink::new(alloc, b"abc".to_vec(alloc)?, 8, 2, vec![in alloc; 3u64]?)?;
    let mut piece = [0u8; 4];
    assert_eq!(rt; link.read(&mut piece), Ok(2));
    assert_eq!(rt; send_all(&mut link, b"vwxyz"), Err(Failed));
    assert_eq!(rt; link.written(), b"vwxy".as_slice());
    Ok(())
}

#[test]
fn bytes_pass_from_a_reader_over_a_stream_to_a_writer(rt: HostRuntime) -> Result<(), Fail> {
    let listener = TcpListener::bind(&rt, "127.0.0.1:0")?;
    let mut near = TcpLink::new(TcpStream::connect(&rt, listener.local_addr()?)?);
    let mut far = TcpLink::new(listener.accept()?.0);
    let (mut read, mut come, mut written) = ([0u8; 2], [0u8; 2], Vec::new(rt.alloc()));
    assert_eq!(rt; ReaderSource::new(b"abc".as_slice()).read(&mut read), Ok(2));
    assert!(rt; send_all(&mut near, &read).is_ok());
    assert_eq!(rt; far.read(&mut come), Ok(2));
    assert!(rt; write_all(&mut WriterSink::new(&mut written), &come).is_ok());
    assert_eq!(rt; written.as_slice(), b"ab".as_slice());
    Ok(())
}

// A file of two lines, beside what a shelf doesn't tell of.
fn fill_folder(rt: &HostRuntime) -> Result<(), Fail> {
    let name = Name::read(rt.alloc(), b"b")?;
    let mut outlet = FolderOutlet::new(rt, "feeds-of-a-test");
    outlet.append(&name, b"x")?;
    outlet.append(&name, b"y")?;
    fs::create_dir(rt, "feeds-of-a-test/folder")?;
    Ok(fs::write(rt, "feeds-of-a-test/no name", "a")?)
}

#[test]
fn a_folder_keeps_lines_and_shows_files_that_have_names(rt: HostRuntime) -> Result<(), Fail> {
    fill_folder(&rt)?;
    let mut shelf = FolderShelf::new(&rt, "feeds-of-a-test");
    let names = shelf.names()?;
    assert_eq!(rt; names.len(), 1);
    assert_eq!(rt; shelf.load(&names[0])?.as_slice(), b"x\ny\n".as_slice());
    let outside = Name::read(rt.alloc(), b"folder/../b")?;
    assert_eq!(rt; shelf.load(&outside).err(), Some(ShelfFault::Failed));
    let mut outlet = FolderOutlet::new(&rt, "feeds-of-a-test");
    assert_eq!(rt; outlet.append(&outside, b"z"), Err(Failed));
    Ok(fs::remove_dir_all(&rt, "feeds-of-a-test")?)
}
