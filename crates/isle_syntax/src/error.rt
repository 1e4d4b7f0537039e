//! Reports of errors with their source files. The errors and the spans where they lie are passed on.
ghost use Rattle.std.specs.Prelude.{◌≡◌};

mod builder;
mod print;

pub use crate::error::builder::ErrorsBuilder;
pub use isle_ast::error::{Error, Span};
use isle_ast::files::Files;
use std::fmt;
use std::marker::Model;
use std::rc::Rc;

/// Faults with the source files that they lie in, which it prints.
#[derive(Debug, Drop)]
pub struct Errors {
    errors: Vec<Error>,
    files: Rc<Files>,
}

impl Model for Errors {
    ghost use Rattle.std.specs.Prelude.{All};
    ghost use Rattle.isle_syntax.specs.Errors.{Report};
    ghost use Rattle.isle_ast.specs.Errors.{IsPrintable};

    ghost Value = { Report };

    ghost view = { λ e. record { errors = e.errors.items; files = e.files.value } };

    ghost invariant = { λ e. All (IsPrintable e.files.value) e.errors.items };
}

impl Errors {
    ghost use Rattle.std.specs.Prelude.{All};
    ghost use Rattle.isle_ast.specs.Errors.{IsPrintable};

    /// Faults of files, which takes no memory.
    pub fn new(errors: Vec<Error>, files: Rc<Files>) -> Errors
        requires { All (IsPrintable files.value) errors.items }
        ensures { result ≡ record { errors = errors.items; files = files.value } }
    {
        Errors { errors, files }
    }

    /// The faults.
    pub fn errors(&self) -> &[Error]
        ensures value { result.now ≡ self.now.errors }
        ensures printable { All (IsPrintable self.now.files) result.now }
    {
        self.errors.as_slice()
    }

    /// The files.
    pub fn files(&self) -> &Rc<Files>
        ensures { result.now.value ≡ self.now.files }
    {
        &self.files
    }
}

/// For each fault a line `FILE:LINE:COLUMN: KIND`, from 1, with columns in bytes; then, each on a
/// line after two spaces, its message, or the further rules as `FILE:LINE:COLUMN`.
impl fmt::Display for Errors {
    ghost use Rattle.std.specs.Prelude.{Some};
    ghost use Rattle.isle_syntax.specs.Errors.{report_text};

    ghost output = { λ e. Some (report_text e) };

    fn fmt<W: fmt::Write>(&self, f: &mut fmt::Formatter<W>) -> fmt::Result {
        let files: &Files = &self.files;
        for error in self.errors.as_slice() {
            print::write_error(f, files, error)?;
        }
        Ok(())
    }
}
