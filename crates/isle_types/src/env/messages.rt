//! What the type errors of types and constants say: names, and where these stand before.
ghost use Rattle.std.specs.Prelude.{◌≡◌, ◌⊎◌, ℕ, [], ◌∷◌, ◌++◌, List, Some, OnOk, OnErr};
ghost use Rattle.isle_ast.specs.declared.error.Error.TheVariants.{TypeError};
ghost use Rattle.isle_ast.specs.Errors.{type_error, error_kind, spans_of, IfFault, span_at};
ghost use Rattle.isle_types.specs.TypeEnvs.{type_of_name};
ghost use Rattle.isle_types.specs.Inside.Readings.{IsTypeErrorAt};

use super::TypeEnv;
use crate::ids::TypeId;
use isle_ast::ast::{self, Def, Ident, TypeValue};
use isle_ast::error::{Error, Span};
use isle_ast::files::Files;
use isle_ast::pos::Pos;
use isle_ast::{Refusal, Text};
use std::alloc::{AllocError, Global};

/// Where a text stands in its file, from 1.
#[derive(Clone, Copy)]
struct Place {
    line: usize,
    column: usize,
}

/// The line and column of a position.
fn place_in(files: &Files, pos: Pos) -> Option<Place> {
    let lines = files.file_line_map(pos.file)?;
    let line = lines.line(pos.offset);
    let start = match line.checked_sub(1) {
        Some(before) => lines.get(before).copied()?,
        None => 0,
    };
    Some(Place {
        line: line.saturating_add(1),
        column: pos.offset.saturating_sub(start).saturating_add(1),
    })
}

/// ` at FILE:LINE:COLUMN`, or nothing where the position has no place.
fn far_place(alloc: Global, files: &Files, pos: Pos) -> Result<String, AllocError> {
    match (files.file_name(pos.file), place_in(files, pos)) {
        (Some(name), Some(place)) => {
            let Place { line, column } = place;
            format!(in alloc; " at {name}:{line}:{column}")
        }
        _ => Ok(String::new(alloc)),
    }
}

/// ` at LINE:COLUMN`, or nothing where the position has no place.
fn near_place(alloc: Global, files: &Files, pos: Pos) -> Result<String, AllocError> {
    match place_in(files, pos) {
        Some(Place { line, column }) => format!(in alloc; " at {line}:{column}"),
        None => Ok(String::new(alloc)),
    }
}

/// Where the first type of a name is defined.
fn first_type(defs: &[Def], name: &str) -> Option<Pos> {
    for def in defs {
        if let Def::TypeDef(ty) = def {
            if ty.name.0.as_str() == name {
                return Some(ty.pos);
            }
        }
    }
    None
}

impl TypeEnv {
    /// A type error at a position, with a message that is made, or out of memory.
    pub fn type_error_saying(pos: Pos, msg: Result<String, AllocError>) -> Refusal<Error>
        ensures error { IfFault result (λ error. (text : List ℕ) × (error ≡ TypeError text (span_at pos))) }
        ensures at { IfFault result (λ error. (error_kind error ≡ type_error) × (spans_of error ≡ span_at pos ∷ [])) }
    {
        match msg {
            Ok(msg) => Refusal::Fault(Error::TypeError {
                msg: Text::new(msg),
                span: Span::at(pos),
            }),
            Err(e) => Refusal::Memory(e),
        }
    }

    /// The name of a type as the definitions write it; empty at an id that the environment doesn't have.
    pub fn type_name(&self, id: TypeId) -> &str
        ensures { (result.now ≡ []) ⊎ (type_of_name self.now result.now ≡ Some id) }
    {
        for name in self.syms() {
            let name = name.as_str();
            if self.type_named(name) == Some(id) {
                return name;
            }
        }
        ""
    }

    /// ` at FILE:LINE:COLUMN` of a position, for a message; empty where the environment doesn't know the files.
    pub fn at_place(&self, pos: Pos) -> Result<String, AllocError> {
        match &self.files {
            Some(files) => far_place(self.alloc, files, pos),
            None => Ok(String::new(self.alloc)),
        }
    }

    /// ` at LINE:COLUMN` of a position, for a message about the same file; empty where the environment doesn't know the files.
    pub fn at_line(&self, pos: Pos) -> Result<String, AllocError> {
        match &self.files {
            Some(files) => near_place(self.alloc, files, pos),
            None => Ok(String::new(self.alloc)),
        }
    }

    /// The type error that a type's name is not known.
    pub fn unknown_type(&self, name: &Ident) -> Refusal<Error>
        ensures error { IfFault result (λ error. (text : List ℕ) × (error ≡ TypeError text (span_at name.now.1))) }
        ensures at { IfFault result (λ error. (error_kind error ≡ type_error) × (spans_of error ≡ span_at name.now.1 ∷ [])) }
    {
        TypeEnv::type_error_saying(name.1, self.unknown_type_text(name))
    }

    /// `the type NAME is not known`.
    pub fn unknown_type_text(&self, name: &Ident) -> Result<String, AllocError> {
        let name = name.0.as_str();
        format!(in self.alloc; "the type {name} is not known")
    }

    /// The type error that the type of a name is marked as it may not be.
    pub(super) fn ill_marked(&self, ty: &ast::Type) -> Refusal<Error>
        ensures { IfFault result (IsTypeErrorAt ty.now.pos) }
    {
        TypeEnv::type_error_saying(ty.pos, self.marks_text(ty))
    }

    /// What is wrong of a type's marks.
    fn marks_text(&self, ty: &ast::Type) -> Result<String, AllocError> {
        let name = ty.name.0.as_str();
        let marks = match (ty.is_extern, ty.is_nodebug) {
            (true, true) => "extern and nodebug",
            (true, false) => "extern",
            _ => "nodebug",
        };
        match &ty.ty {
            TypeValue::Primitive(..) => {
                format!(in self.alloc; "{name} is primitive, and is marked {marks}")
            }
            TypeValue::Enum(..) | TypeValue::Struct(..) => {
                format!(in self.alloc; "{name} is marked {marks}")
            }
        }
    }

    /// The type error that a type has a part of this name already.
    pub(super) fn part_twice(&self, pos: Pos, part: &str, name: &Ident) -> Refusal<Error>
        ensures { IfFault result (λ error. (text : List ℕ) × (error ≡ TypeError text (span_at pos))) }
    {
        let name = name.0.as_str();
        TypeEnv::type_error_saying(
            pos,
            format!(in self.alloc; "the {part} {name} is defined already"),
        )
    }

    /// Keeps the type error that the name of a type is taken. Without memory nothing changes.
    pub(super) fn report_taken(&mut self, ty: &ast::Type, defs: &[Def]) -> Result<(), AllocError>
        ensures ok { OnOk result ((text : List ℕ) × (self.new
            ≡ record self.old { errors = self.old.errors ++ TypeError text (span_at ty.now.pos) ∷ [] })) }
        ensures err { OnErr result (self.new ≡ self.old) }
    {
        let msg = self.taken_text(ty, defs)?;
        self.report_error(ty.pos, msg.as_str())
    }

    /// What takes the name of a type.
    fn taken_text(&self, ty: &ast::Type, defs: &[Def]) -> Result<String, AllocError> {
        let name = ty.name.0.as_str();
        match first_type(defs, name) {
            Some(first) if first != ty.pos => {
                let place = self.at_place(first)?;
                format!(in self.alloc; "{name} is defined already{place}")
            }
            _ => format!(in self.alloc; "{name} is a builtin type"),
        }
    }

    /// Keeps the type error that a type's name is not known. Without memory nothing changes.
    pub(super) fn report_unknown(&mut self, name: &Ident) -> Result<(), AllocError>
        ensures ok { OnOk result ((text : List ℕ) × (self.new
            ≡ record self.old { errors = self.old.errors ++ TypeError text (span_at name.now.1) ∷ [] })) }
        ensures err { OnErr result (self.new ≡ self.old) }
    {
        let msg = self.unknown_type_text(name)?;
        self.report_error(name.1, msg.as_str())
    }
}
