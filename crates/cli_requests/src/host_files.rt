//! Where the files of a command line are read and written.

use std::alloc::{AllocError, Global};
use std::fs;
use std::io::{Error, ErrorKind};

/// Why a file can't be read or written.
#[derive(Clone, Copy, Debug)]
pub enum Refusal {
    /// There is no file of that name.
    Missing,
    /// It is a folder.
    Folder,
    /// Reading or writing it failed.
    Failed,
}

/// Why a file's bytes could not be had, or not be written.
#[derive(Clone, Copy)]
pub enum FileFault {
    /// The file refuses.
    Refused(Refusal),
    /// Memory was refused.
    Memory,
}

impl From<AllocError> for FileFault {
    ghost use Rattle.cli_requests.specs.declared.host_files.FileFault.TheVariants.{Memory};
    ghost use Rattle.std.specs.Prelude.{◌≡◌};

    ghost from_gives = { λ _ fault. fault ≡ Memory };

    fn from(_error: AllocError) -> FileFault {
        FileFault::Memory
    }
}

/// Files by name. A test has its own in memory.
pub trait Files {
    /// All bytes of a file; of the system's files `-` is standard input.
    fn read(&mut self, alloc: Global, name: &str) -> Result<Vec<u8>, FileFault>;

    /// Writes a file of a folder, in place of what it had. The folder is made where it isn't there.
    fn write(
        &mut self,
        alloc: Global,
        folder: &str,
        name: &str,
        bytes: &[u8],
    ) -> Result<(), FileFault>;
}

/// Where a file is read that a line names: `-` is standard input.
fn path_of(name: &str) -> &str {
    match name {
        "-" => "/dev/stdin",
        name => name,
    }
}

/// What an error of the system says of a file.
fn fault_of(error: Error) -> FileFault {
    match error.kind() {
        ErrorKind::OutOfMemory => FileFault::Memory,
        ErrorKind::NotFound | ErrorKind::NotADirectory => FileFault::Refused(Refusal::Missing),
        ErrorKind::IsADirectory => FileFault::Refused(Refusal::Folder),
        _ => FileFault::Refused(Refusal::Failed),
    }
}

/// The files of the system.
#[derive(Drop)]
pub struct HostFiles<'a> {
    rt: &'a HostRuntime,
}

impl<'a> HostFiles<'a> {
    pub fn new(rt: &'a HostRuntime) -> Self {
        HostFiles { rt }
    }
}

impl Files for HostFiles<'_> {
    fn read(&mut self, _alloc: Global, name: &str) -> Result<Vec<u8>, FileFault> {
        match fs::read(self.rt, path_of(name)) {
            Ok(bytes) => Ok(bytes),
            Err(error) => Err(fault_of(error)),
        }
    }

    fn write(
        &mut self,
        alloc: Global,
        folder: &str,
        name: &str,
        bytes: &[u8],
    ) -> Result<(), FileFault> {
        let path = format!(in alloc; "{folder}/{name}")?;
        let written = match fs::create_dir_all(self.rt, folder) {
            Ok(()) => fs::write(self.rt, path.as_str(), bytes),
            Err(error) => Err(error),
        };
        match written {
            Ok(()) => Ok(()),
            Err(error) => Err(fault_of(error)),
        }
    }
}
