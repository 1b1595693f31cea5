//! Speaks the lines of standard input by the setup that its words name.
//!
//! All of it is the call `speak` of `speak_core`, over the files of the working folder and the standard streams; the contract of
//! that call says what is written, and which status is answered.
#![tactic(auto)]

use norm_base::{FolderShelf, Name, ReaderSource, WriterSink, put_all};
use speak_core::{NoWatch, speak};
use std::alloc::AllocError;
use std::env;
use std::io::ErrorKind;
use std::process::ExitCode;

/// The status for want of memory.
const NO_MEMORY: u8 = 5;

fn main(rt: HostRuntime) -> ExitCode {
    let alloc = rt.alloc();
    let (Ok(words), Ok(folder)) = (words(&rt), Name::new(alloc, b".")) else {
        let _told = put_all(&mut WriterSink::new(rt.stderr()), b"no memory\n");
        return ExitCode::from(NO_MEMORY);
    };
    let mut shelf = FolderShelf::new(&rt, folder);
    let mut source = ReaderSource::new(rt.stdin());
    let mut out = WriterSink::new(rt.stdout());
    let mut err = WriterSink::new(rt.stderr());
    let mut callers = Vec::new(alloc);
    ExitCode::from(speak(
        &rt,
        alloc,
        &words,
        &mut shelf,
        &mut source,
        &mut out,
        &mut err,
        &NoWatch,
        &mut callers,
    ))
}

/// The words of the command line; none where one of them isn't text, so that they are refused.
fn words(rt: &HostRuntime) -> Result<Vec<String>, AllocError> {
    match env::args(rt) {
        Ok(args) => args.collect(rt.alloc()),
        Err(e) if e.kind() == ErrorKind::OutOfMemory => Err(AllocError),
        Err(_) => Ok(Vec::new(rt.alloc())),
    }
}
