//! The trusted edge: a file of the system as a store. It tells nothing of its bytes, and counts faults.

ghost use Rattle.std.specs.Prelude.{◌≡◌, ◌<◌, ◌≤◌, IfOk, OnErr};
ghost use Rattle.zw_base.specs.Faults.{Rose};

use crate::store::Store;
use host_keep::KeepFault;
use std::alloc::Global;
use std::fs::{File, Files, OpenOptions, TryLockError};
use std::io;
use std::io::{ErrorKind, Read, Seek, SeekFrom, Write};
use std::path::Path;
use zw_base::{Bytes, Failed};

/// Why a file was not opened as a store.
#[derive(Debug, Drop)]
pub enum DiskFault {
    /// Another program has it open as a store.
    Locked,
    /// What has that name is no file.
    NoFile,
    /// The system refused.
    Refused { error: io::Error },
}

impl From<io::Error> for DiskFault {
    fn from(error: io::Error) -> DiskFault {
        DiskFault::Refused { error }
    }
}

/// A file that is open for this program alone: until it is closed, or the program has ended in whatever way, no other opens it so.
#[derive(Drop)]
pub struct DiskFile {
    file: File,
    faults: u64,
}

impl DiskFile {
    /// Opens the file of that name, or makes it, and has its name reach the disk. It writes nothing.
    pub fn open<R: Files<File = File>>(rt: &R, name: &str) -> Result<DiskFile, DiskFault>
        ensures none_yet { IfOk result (λ f. f.faults ≡ 0) }
    {
        let file = OpenOptions::new()
            .read(true)
            .append(true)
            .create(true)
            .open(rt, name)?;
        if !file.metadata()?.is_file() {
            return Err(DiskFault::NoFile);
        }
        match file.try_lock() {
            Ok(()) => {}
            Err(TryLockError::WouldBlock) => return Err(DiskFault::Locked),
            Err(TryLockError::Error(error)) => return Err(DiskFault::Refused { error }),
        }
        sync_folder(rt, Path::new(name))?;
        Ok(DiskFile { file, faults: 0 })
    }

    // Counts a fault, where there was one.
    fn told(&mut self, done: io::Result<()>) -> Result<(), Failed>
        ensures failed { OnErr result (Rose self.old.faults self.new.faults) }
        ensures never_falls { self.old.faults ≤ self.new.faults }
    {
        match done {
            Ok(()) => Ok(()),
            Err(_) => {
                self.faults = self.faults.saturating_add(1);
                Err(Failed)
            }
        }
    }
}

// Has the names in the folder of that file reach the disk.
fn sync_folder<R: Files<File = File>>(rt: &R, file: Path<'_>) -> io::Result<()> {
    let folder = match file.parent() {
        Some(folder) if !folder.as_str().is_empty() => folder,
        _ => Path::new("."),
    };
    File::open(rt, folder)?.sync_all()
}

// All the bytes of the file.
fn read_file(file: &mut File, alloc: Global) -> io::Result<Vec<u8>> {
    let mut bytes = Vec::new(alloc);
    file.seek(SeekFrom::Start(0))?;
    file.read_to_end(&mut bytes)?;
    Ok(bytes)
}

impl Store for DiskFile {
    ghost use Rattle.std.specs.Prelude.{None};

    ghost held = { λ _. None };

    ghost synced = { λ _. None };

    ghost faults = { λ f. f.faults };

    fn read_all(&mut self, alloc: Global) -> Result<Bytes, KeepFault> {
        match read_file(&mut self.file, alloc) {
            Ok(bytes) => Ok(Bytes::from_slice(alloc, bytes.as_slice())?),
            Err(error) if error.kind() == ErrorKind::OutOfMemory => Err(KeepFault::NoMemory),
            Err(_) => {
                self.faults = self.faults.saturating_add(1);
                Err(KeepFault::Failed)
            }
        }
    }

    fn append(&mut self, bytes: &[u8]) -> Result<(), Failed> {
        let done = self.file.write_all(bytes);
        self.told(done)
    }

    fn sync(&mut self) -> Result<(), Failed> {
        let done = self.file.sync_data();
        self.told(done)
    }

    fn cut(&mut self, length: u64) -> Result<(), Failed> {
        let done = self.file.set_len(length);
        self.told(done)
    }
}
