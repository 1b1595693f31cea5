// The files of a folder.
ghost use Rattle.std.specs.Prelude.{◌≡◌, ◌<◌, ◌≤◌, ◌^◌, None, IfOk, IfSome, vec_len, List, ℕ};
ghost use Rattle.norm_base.specs.Causes.{FetchCause};
ghost use Rattle.norm_base.specs.Files.{Fetches};

use crate::{FetchFault, Name, Shelf};
use std::fs::File;
use std::io;
use std::io::{ErrorKind, Read};
use std::rt::Files;
use std::str::from_utf8;

/// How many bytes a file has at most.
const LONGEST_FILE: u64 = 67_108_864;

/// The files of a folder, each found under the folder's name, a slash and its own name. `None` is
/// answered for a file that isn't there. Every other error but want of memory is a counted fault,
/// as for a folder in a file's place, a path through a file, a file that may not be read, and a
/// file of more than 67,108,864 bytes.
#[derive(Drop)]
pub struct FolderShelf<'a, R> {
    rt: &'a R,
    folder: Name,
    faults: u64,
    ghost counted: { faults < 2 ^ 64 },
}

impl<'a, R: Files + AllocGlobal> FolderShelf<'a, R> {
    /// The shelf of the files of this folder, whose name is UTF-8 wherever a file is found.
    pub fn new(rt: &'a R, folder: Name) -> FolderShelf<'a, R>
        ensures { ⟦<FolderShelf<'a, R> as Shelf>⟧.faults result ≡ 0 }
    {
        FolderShelf {
            rt,
            folder,
            faults: 0,
        }
    }
}

impl<'a, R: Files + AllocGlobal> Shelf for FolderShelf<'a, R> {
    ghost files = { λ s. None };

    ghost faults = { λ s. s.faults };

    ghost counted = { λ s. s.counted };

    fn fetch(&mut self, name: &str) -> Result<Option<Vec<u8>>, FetchFault>
        // What a real folder holds isn't known.
        ensures found { Fetches None name.now result }
        ensures cause { FetchCause (⟦<FolderShelf<'a, R> as Shelf>⟧.faults self.old)
            (⟦<FolderShelf<'a, R> as Shelf>⟧.faults self.new) result }
        ensures limit { IfOk result (λ file. IfSome file (λ bytes. vec_len bytes ≤ 67108864)) }
    {
        match read_file(self.rt, self.folder.bytes(), name) {
            Ok(bytes) => Ok(Some(bytes)),
            Err(error) => match error.kind() {
                ErrorKind::NotFound => Ok(None),
                ErrorKind::OutOfMemory => Err(FetchFault::Memory),
                _ => {
                    self.faults = self.faults.saturating_add(1);
                    Err(FetchFault::Failed)
                }
            },
        }
    }
}

// The file of this name in the folder, where it isn't longer than the limit.
fn read_file<R: Files + AllocGlobal>(rt: &R, folder: &[u8], name: &str) -> io::Result<Vec<u8>>
    ensures limit { IfOk result (λ bytes. vec_len bytes ≤ 67108864) }
{
    let Ok(folder) = from_utf8(folder) else {
        return Err(io::Error::from(ErrorKind::InvalidFilename));
    };
    let path = format!(in rt.alloc(); "{folder}/{name}")?;
    let file = File::open(rt, &path)?;
    let mut bytes = Vec::new(rt.alloc());
    let mut front = file.take(LONGEST_FILE + 1);
    let count = front.read_to_end(&mut bytes)?;
    if count as u64 > LONGEST_FILE {
        return Err(io::Error::from(ErrorKind::FileTooLarge));
    }
    Ok(bytes)
}
