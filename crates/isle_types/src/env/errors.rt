//! Type errors and size errors at positions, and those that an environment of types keeps.
ghost use Rattle.std.specs.Prelude.{◌≡◌, [], ◌∷◌, ◌++◌, IfErr, OnOk, OnErr};
ghost use Rattle.isle_ast.specs.declared.error.Error.TheVariants.{TypeError, SizeError};
ghost use Rattle.isle_ast.specs.Errors.{size_error, error_kind, IfFault, IsFaultAnd, span_at};
ghost use Rattle.isle_types.specs.Names.{AreDistinct};

use super::TypeEnv;
use isle_ast::error::{Error, Span};
use isle_ast::pos::Pos;
use isle_ast::{Refusal, Text};
use std::alloc::AllocError;

impl TypeEnv {
    /// Keeps a type error. A size error, alone, and that memory ran out are handed on.
    pub fn keep(&mut self, refusal: Refusal<Error>) -> Result<(), Refusal<Vec<Error>>>
        ensures ok { OnOk result (IsFaultAnd refusal (λ error. (¬ (error_kind error ≡ size_error))
            × (self.new ≡ record self.old { errors = self.old.errors ++ error ∷ [] }))) }
        ensures err { OnErr result (self.new ≡ self.old) }
        ensures size { IfErr result (λ r. IfFault r (λ errors. IsFaultAnd refusal
            (λ error. (error_kind error ≡ size_error) × (errors.items ≡ error ∷ [])))) }
    {
        match refusal {
            Refusal::Memory(e) => Err(Refusal::Memory(e)),
            Refusal::Fault(Error::SizeError { msg, span }) => {
                let mut errors = Vec::new(self.alloc);
                errors.push(Error::SizeError { msg, span })?;
                Err(Refusal::Fault(errors))
            }
            Refusal::Fault(error) => {
                self.errors.push(error)?;
                Ok(())
            }
        }
    }

    /// A type error at a position, or out of memory for its message.
    pub fn type_error(&self, pos: Pos, msg: &str) -> Refusal<Error>
        ensures { IfFault result (λ error. error ≡ TypeError msg.now (span_at pos)) }
    {
        match Text::from_str(self.alloc, msg) {
            Ok(msg) => Refusal::Fault(Error::TypeError {
                msg,
                span: Span::at(pos),
            }),
            Err(e) => Refusal::Memory(e),
        }
    }

    /// A size error at a position, or out of memory for its message.
    pub fn size_error(&self, pos: Pos, msg: &str) -> Refusal<Error>
        ensures { IfFault result (λ error. error ≡ SizeError msg.now (span_at pos)) }
    {
        match Text::from_str(self.alloc, msg) {
            Ok(msg) => Refusal::Fault(Error::SizeError {
                msg,
                span: Span::at(pos),
            }),
            Err(e) => Refusal::Memory(e),
        }
    }

    /// Keeps a type error at a position. Without memory nothing changes.
    pub fn report_error(&mut self, pos: Pos, msg: &str) -> Result<(), AllocError>
        ensures ok { OnOk result (self.new
            ≡ record self.old { errors = self.old.errors ++ TypeError msg.now (span_at pos) ∷ [] }) }
        ensures err { OnErr result (self.new ≡ self.old) }
    {
        let msg = Text::from_str(self.alloc, msg)?;
        self.errors.push(Error::TypeError {
            msg,
            span: Span::at(pos),
        })?;
        Ok(())
    }

    /// Takes the errors kept so far.
    pub fn take_errors(&mut self) -> Vec<Error>
        ensures taken { result.items ≡ self.old.errors }
        ensures none_left { self.new ≡ record self.old { errors = [] } }
        ensures once { AreDistinct self.new.names }
    {
        std::mem::replace(&mut self.errors, Vec::new(self.alloc))
    }

    /// The errors kept so far.
    pub fn errors(&self) -> &[Error]
        ensures { result.now ≡ self.now.errors }
    {
        self.errors.as_slice()
    }
}
