//! A builder of a report, which gathers faults and the source files that they lie in.
ghost use Rattle.std.specs.Prelude.{◌≡◌, ◌∷◌, ◌++◌, [], IfOk};

use crate::error::Errors;
use isle_ast::error::Error;
use isle_ast::files::Files;
use std::alloc::{AllocError, Global};
use std::marker::Model;
use std::rc::Rc;

/// Faults that are gathered, and the source files that they lie in: none until they are given.
#[derive(Debug, Drop)]
pub struct ErrorsBuilder {
    errors: Vec<Error>,
    files: Rc<Files>,
}

impl Model for ErrorsBuilder {
    ghost use Rattle.isle_syntax.specs.Errors.{Report};

    ghost Value = { Report };

    ghost view = { λ b. record { errors = b.errors.items; files = b.files.value } };
}

impl ErrorsBuilder {
    ghost use Rattle.std.specs.Prelude.{All};
    ghost use Rattle.isle_ast.specs.Errors.{IsPrintable};

    /// No faults of no files.
    pub fn new(alloc: Global) -> Result<ErrorsBuilder, AllocError>
        ensures { IfOk result (λ builder. builder ≡ record { errors = []; files = [] }) }
    {
        let files = Files::from_names_and_contents(alloc, Vec::new(alloc))?;
        Ok(ErrorsBuilder {
            errors: Vec::new(alloc),
            files: Rc::new(alloc, files)?,
        })
    }

    /// One fault more, after the others.
    pub fn error(mut self, error: Error) -> Result<ErrorsBuilder, AllocError>
        ensures errors { IfOk result (λ builder. builder.errors ≡ self.errors ++ error ∷ []) }
        ensures files { IfOk result (λ builder. builder.files ≡ self.files) }
    {
        self.errors.push(error)?;
        Ok(self)
    }

    /// Faults more, after the others and in their order.
    pub fn errors(mut self, mut errors: Vec<Error>) -> Result<ErrorsBuilder, AllocError>
        ensures errors { IfOk result (λ builder. builder.errors ≡ self.errors ++ errors.items) }
        ensures files { IfOk result (λ builder. builder.files ≡ self.files) }
    {
        self.errors.append(&mut errors)?;
        Ok(self)
    }

    /// The files, in place of those that were given before. It takes no memory.
    pub fn files(mut self, files: Rc<Files>) -> ErrorsBuilder
        ensures errors { result.errors ≡ self.errors }
        ensures files { result.files ≡ files.value }
    {
        self.files = files;
        self
    }

    /// The faults with the files, which takes no memory.
    pub fn build(self) -> Errors
        requires { All (IsPrintable self.files) self.errors }
        ensures { result ≡ self }
    {
        Errors::new(self.errors, self.files)
    }
}
