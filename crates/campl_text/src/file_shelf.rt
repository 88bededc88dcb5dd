//! A shelf over the files of the system. It tells nothing of what they hold.
ghost use Rattle.std.specs.Prelude.{◌≡◌, ◌≤◌, IfSome, length};

use crate::reading::{Failed, Shelf};
use std::alloc::Global;
use std::fs::File;
use std::io;
use std::io::{Read, Seek, SeekFrom};
use std::marker::Model;
use std::rt::Files;

/// A shelf whose names are paths. A read from the start opens the file; one that begins where the last read of the same
/// name ended goes on in the file that is open then. So a pipe can be read, and a file that is replaced meanwhile isn't mixed.
/// A path with no file, a directory and a file that can't be read are faults, and so is want of memory for the name.
/// One count is kept, for all names. Contracts see that count.
#[derive(Drop)]
pub struct FileShelf<'a, R: Files> {
    rt: &'a R,
    alloc: Global,
    open: Option<OpenFile<R::File>>,
    faults: u64,
}

// A file that was read up to a position.
#[derive(Drop)]
struct OpenFile<F: Drop> {
    name: String,
    position: u64,
    file: F,
}

impl<'a, R: Files> Model for FileShelf<'a, R> {
    ghost use Rattle.std.specs.Prelude.{ℕ};

    ghost Value = { ℕ };

    ghost view = { λ s. s.faults };
}

impl<'a, R: Files> FileShelf<'a, R> {
    pub fn new(rt: &'a R, alloc: Global) -> FileShelf<'a, R>
        ensures { result ≡ 0 }
    {
        FileShelf {
            rt,
            alloc,
            open: None,
            faults: 0,
        }
    }
}

impl<'a, R: Files> Shelf for FileShelf<'a, R> {
    ghost use Rattle.std.specs.Prelude.{None};

    ghost holds = { λ _ _. None };

    ghost faults = { λ s _. s };

    fn read(&mut self, name: &str, at: u64, into: &mut [u8]) -> Result<usize, Failed> {
        if !self.goes_on(name, at) {
            self.open = open_at(self.rt, self.alloc, name, at).ok();
        }
        match read_on(&mut self.open, into) {
            Some(count) => Ok(count),
            None => {
                self.open = None;
                self.faults = self.faults.saturating_add(1);
                Err(Failed)
            }
        }
    }
}

impl<'a, R: Files> FileShelf<'a, R> {
    // Whether a read of the name from this position begins where the last one ended. One from the start never does.
    fn goes_on(&self, name: &str, at: u64) -> bool {
        match &self.open {
            Some(open) => at > 0 && open.position == at && open.name.as_str() == name,
            None => false,
        }
    }
}

// The file of the name, opened to be read from this position.
fn open_at<R: Files>(
    rt: &R,
    alloc: Global,
    name: &str,
    position: u64,
) -> io::Result<OpenFile<R::File>> {
    let mut file = File::open(rt, name)?;
    if position > 0 {
        file.seek(SeekFrom::Start(position))?;
    }
    Ok(OpenFile {
        name: String::from_str(alloc, name)?,
        position,
        file,
    })
}

// Reads on in the file that is open, and answers how many bytes; `None` where that fails or no file is open.
fn read_on<F: Read + Drop>(open: &mut Option<OpenFile<F>>, into: &mut [u8]) -> Option<usize>
    ensures { IfSome result (λ n. n ≤ length into.new) }
{
    let open = open.as_mut()?;
    let count = open.file.read(into).ok()?;
    open.position = open.position.saturating_add(count as u64);
    Some(count)
}
