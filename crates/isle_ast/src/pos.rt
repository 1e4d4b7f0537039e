//! Places in source files.
ghost use Rattle.std.specs.Prelude.{◌≡◌, ◌↔◌, IsTrue};

use crate::files::Files;
use std::alloc::{AllocError, Global};

/// A place in a source file: the number of the file, and the byte offset in its text, from 0.
#[derive(Debug, Clone, Copy, PartialEq, Eq, PartialOrd, Ord, Hash, Default)]
pub struct Pos {
    pub file: usize,
    pub offset: usize,
}

impl Pos {
    ghost use Rattle.std.specs.Prelude.{◌<◌, IfOk, IfSome, length, slice_get, string_bytes};
    ghost use Rattle.isle_ast.specs.Positions.Files.{named_line};

    /// A place.
    pub fn new(file: usize, offset: usize) -> Pos
        ensures { result ≡ record { file = file; offset = offset } }
    {
        Pos { file, offset }
    }

    /// Whether this is the default position, the first byte of file 0.
    pub fn is_unknown(&self) -> bool
        ensures { IsTrue result ↔ (self.now ≡ record { file = 0; offset = 0 }) }
    {
        self.file == 0 && self.offset == 0
    }

    /// The text `NAME line N` of the file's name and the line, from 1.
    pub fn pretty_print_line(&self, alloc: Global, files: &Files) -> Result<String, AllocError>
        requires { self.now.file < length files.now }
        ensures { IfSome (slice_get files.now self.now.file)
            (λ f. IfOk result (λ s. string_bytes s ≡ named_line f self.now.offset)) }
    {
        let file = files.file(self.file).unwrap();
        let name = file.name();
        let line = file.line(self.offset);
        format!(in alloc; "{name} line {line}")
    }
}
