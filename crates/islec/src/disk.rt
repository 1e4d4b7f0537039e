//! The files of the machine.
ghost use Rattle.std.specs.Prelude.{None, ⊤};

use crate::sources::{FileFault, Sources, Targets};
use std::alloc::Global;
use std::fs::{File, OpenFile, Permissions};
use std::io::{ErrorKind, Write};
use std::rt::Files;
use std::{fs, io};

/// The files of the machine. No clause says what they hold: that is what the operating system tells.
#[derive(Drop)]
pub struct Disk<'a, R> {
    pub rt: &'a R,
}

impl<R: Files + AllocGlobal> Sources for Disk<'_, R> {
    ghost gives = { λ _ _ _. ⊤ };

    fn read(&self, _alloc: Global, name: &str) -> Result<Vec<u8>, FileFault> {
        match fs::read(self.rt, name) {
            Ok(bytes) => Ok(bytes),
            Err(error) => Err(fault_of(&error)),
        }
    }
}

impl<R: Files + AllocGlobal> Targets for Disk<'_, R> {
    ghost replaced = { λ _. None };

    fn replace(&mut self, alloc: Global, name: &str, text: &str) -> Result<(), FileFault> {
        match replace_file(alloc, self.rt, name, text) {
            Ok(()) => Ok(()),
            Err(error) => Err(fault_of(&error)),
        }
    }
}

// What an error of the machine is.
fn fault_of(error: &io::Error) -> FileFault {
    if error.kind() == ErrorKind::OutOfMemory {
        FileFault::Memory
    } else {
        FileFault::Fails(error.kind())
    }
}

// Puts a text in the place of a file, which links may lead to, by a new file beside it that is renamed: so that nothing but the old text or the
// new one is ever there. A file that nobody may write isn't.
fn replace_file<R: Files + AllocGlobal>(
    alloc: Global,
    rt: &R,
    name: &str,
    text: &str,
) -> io::Result<()> {
    let path = fs::canonicalize(rt, name)?;
    let mode = fs::metadata(rt, path.as_str())?.permissions();
    if mode.readonly() {
        return Err(io::Error::from(ErrorKind::PermissionDenied));
    }
    let beside = format!(in alloc; "{}.islec-new", path.as_str())?;
    let mut file = File::create_new(rt, beside.as_str())?;
    let filled = fill(&mut file, mode, text);
    let replaced = match filled {
        Ok(()) => fs::rename(rt, beside.as_str(), path.as_str()),
        Err(error) => Err(error),
    };
    if replaced.is_err() {
        let _ = fs::remove_file(rt, beside.as_str());
    }
    replaced
}

// Gives a new file its mode and its text.
fn fill<F: OpenFile + Write>(file: &mut F, mode: Permissions, text: &str) -> io::Result<()> {
    file.set_permissions(mode)?;
    file.write_all(text.as_bytes())?;
    file.sync_all()
}
