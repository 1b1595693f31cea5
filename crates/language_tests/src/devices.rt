//! Devices in memory, and those of the system.

use norm_base::{
    Failed, FetchFault, FolderShelf, MemShelf, MemSink, MemSource, Name, ReaderSource, Shelf, Sink,
    SinkFault, Source, SureShelf, SureSink, SureSource, WriterSink, put_all,
};
use std::alloc::{AllocError, Global};
use std::io::{Cursor, ErrorKind, Read, Write};
use std::test::Fail;
use std::{fs, io};

// A reader and a writer that fail at each call.
#[derive(Drop)]
struct Broken(ErrorKind);

impl Read for Broken {
    fn read(&mut self, _buf: &mut [u8]) -> io::Result<usize> {
        Err(io::Error::from(self.0))
    }
}

impl Write for Broken {
    fn write(&mut self, _buf: &[u8]) -> io::Result<usize> {
        Err(io::Error::from(self.0))
    }

    fn flush(&mut self) -> io::Result<()> {
        Ok(())
    }
}

// A writer that takes nothing.
#[derive(Drop)]
struct Full;

impl Write for Full {
    fn write(&mut self, _buf: &[u8]) -> io::Result<usize> {
        Ok(0)
    }

    fn flush(&mut self) -> io::Result<()> {
        Ok(())
    }
}

fn shares<T: Sync>(_value: &T) {}

fn moves<T: Send + Drop>(_value: T) {}

#[test]
fn a_name_holds_its_bytes_and_is_shared_and_moved(rt: HostRuntime) -> Result<(), Fail> {
    let alloc = rt.alloc();
    let name = Name::new(alloc, b"x")?;
    assert_eq!(rt; name.bytes(), b"x".as_slice());
    assert!(rt; name == Name::new(alloc, b"x")?);
    assert!(rt; name != Name::new(alloc, b"xy")?);
    shares(&name);
    moves(name);
    Ok(())
}

// Two files named `x`, and one named `y`.
fn three_files(alloc: Global) -> Result<Vec<(Name, Vec<u8>)>, AllocError> {
    let mut files = Vec::new(alloc);
    files.push((Name::new(alloc, b"x")?, b"first".to_vec(alloc)?))?;
    files.push((Name::new(alloc, b"x")?, b"second".to_vec(alloc)?))?;
    files.push((Name::new(alloc, b"y")?, b"other".to_vec(alloc)?))?;
    Ok(files)
}

#[test]
fn shelves_in_memory_fetch_the_first_file_of_a_name(rt: HostRuntime) -> Result<(), Fail> {
    let alloc = rt.alloc();
    let mut sure = SureShelf::new(alloc, three_files(alloc)?);
    let mut shelf = MemShelf::new(alloc, three_files(alloc)?, [4].to_vec(alloc)?);
    for (name, content) in [("x", Some("first")), ("y", Some("other")), ("z", None)] {
        let wanted = content.map(|text| text.as_bytes());
        assert_eq!(rt; sure.fetch(name)?.as_deref(), wanted, "{name}");
        assert_eq!(rt; shelf.fetch(name)?.as_deref(), wanted, "{name}");
    }
    assert_eq!(rt; shelf.fetch("x").err(), Some(FetchFault::Failed));
    assert!(rt; shelf.fetch("x")?.is_some());
    Ok(())
}

#[test]
fn sinks_in_memory_take_pieces(rt: HostRuntime) -> Result<(), Fail> {
    let alloc = rt.alloc();
    let mut sink = MemSink::new(alloc, 1, [3].to_vec(alloc)?);
    assert_eq!(rt; sink.write(b"xy"), Ok(1));
    assert_eq!(rt; sink.bytes(), b"x".as_slice());
    assert_eq!(rt; put_all(&mut sink, b"yz"), Err(SinkFault::Failed));
    assert_eq!(rt; sink.bytes(), b"xy".as_slice());
    assert_eq!(rt; put_all(&mut sink, b"z"), Ok(()));
    assert_eq!(rt; sink.bytes(), b"xyz".as_slice());
    let mut sure = SureSink::new(alloc, 2);
    assert_eq!(rt; sure.write(b"abc"), Ok(2));
    assert_eq!(rt; put_all(&mut sure, b"cde"), Ok(()));
    assert_eq!(rt; sure.bytes(), b"abcde".as_slice());
    Ok(())
}

#[test]
fn sources_in_memory_give_pieces(rt: HostRuntime) -> Result<(), Fail> {
    let alloc = rt.alloc();
    let mut into = [0u8; 4];
    let mut source = MemSource::new(b"abc".to_vec(alloc)?, 2, [2].to_vec(alloc)?);
    for wanted in [Ok(2), Err(Failed), Ok(1), Ok(0)] {
        assert_eq!(rt; source.read(&mut into), wanted);
    }
    let mut sure = SureSource::new(b"abc".to_vec(alloc)?, 9);
    for wanted in [Ok(3), Ok(0)] {
        assert_eq!(rt; sure.read(&mut into), wanted);
    }
    assert_eq!(rt; into, *b"abc\0");
    Ok(())
}

#[test]
fn a_reader_is_a_source(rt: HostRuntime) -> Result<(), Fail> {
    let alloc = rt.alloc();
    let mut into = [0u8; 4];
    let mut source = ReaderSource::new(Cursor::new(b"abcde".to_vec(alloc)?));
    for wanted in [4, 1, 0] {
        assert_eq!(rt; source.read(&mut into), Ok(wanted));
    }
    assert_eq!(rt; into, *b"ebcd");
    let mut broken = ReaderSource::new(Broken(ErrorKind::TimedOut));
    assert_eq!(rt; broken.read(&mut into), Err(Failed));
    Ok(())
}

#[test]
fn a_writer_is_a_sink(rt: HostRuntime) -> Result<(), Fail> {
    let alloc = rt.alloc();
    let mut content = Vec::new(alloc);
    assert_eq!(rt; put_all(&mut WriterSink::new(&mut content), b"xyz"), Ok(()));
    assert_eq!(rt; content.as_slice(), b"xyz".as_slice());
    assert_eq!(rt; WriterSink::new(Full).write(b"x"), Err(SinkFault::Failed));
    for (kind, wanted) in [
        (ErrorKind::OutOfMemory, SinkFault::Memory),
        (ErrorKind::StorageFull, SinkFault::Failed),
    ] {
        assert_eq!(rt; WriterSink::new(Broken(kind)).write(b"x"), Err(wanted));
    }
    Ok(())
}

#[test]
fn a_folder_is_a_shelf(rt: HostRuntime) -> Result<(), Fail> {
    let alloc = rt.alloc();
    fs::create_dir_all(&rt, "shelf/folder")?;
    fs::write(&rt, "shelf/file", "text")?;
    let mut shelf = FolderShelf::new(&rt, Name::new(alloc, b"shelf")?);
    assert_eq!(rt; shelf.fetch("file")?.as_deref(), Some(b"text".as_slice()));
    for absent in ["absent", "folder/absent", "absent/file"] {
        assert_eq!(rt; shelf.fetch(absent)?.as_deref(), None, "{absent}");
    }
    for wrong in ["folder", "file/below", ""] {
        assert_eq!(rt;
            shelf.fetch(wrong).err(),
            Some(FetchFault::Failed),
            "{wrong}"
        );
    }
    let long = fs::File::create(&rt, "shelf/long")?;
    long.set_len(67_108_864)?;
    assert_eq!(rt;
        shelf.fetch("long")?.map(|bytes| bytes.len()),
        Some(67_108_864)
    );
    long.set_len(67_108_865)?;
    assert_eq!(rt; shelf.fetch("long").err(), Some(FetchFault::Failed));
    let mut unnamed = FolderShelf::new(&rt, Name::new(alloc, b"\xff")?);
    assert_eq!(rt; unnamed.fetch("file").err(), Some(FetchFault::Failed));
    fs::remove_dir_all(&rt, "shelf")?;
    Ok(())
}
