//! Warnings of terms that nothing uses.
ghost use Rattle.std.specs.Prelude.{List, All, OnOk};
ghost use Rattle.isle_ast.specs.Positions.Files.{SourceFile};
ghost use Rattle.isle_ast.specs.Positions.Printable.{IsPrintablePos};
ghost use Rattle.isle_ast.specs.Positions.DefPositions.{DefAt};
ghost use Rattle.isle_tell.specs.Inside.Warnings.{WarningAt};

use crate::warnings::Warning;
use crate::warnings::messages::unused;
use isle_ast::ast::{Def, Ident, IfLet, Rule};
use isle_ast::pos::Pos;
use isle_program::Program;
use std::alloc::{AllocError, Global};

/// Which terms of a program are named, by their numbers.
#[derive(Drop)]
struct Named<'a> {
    program: &'a Program,
    marks: Vec<bool>,
}

impl Named<'_> {
    /// Marks a term as named.
    fn mark(&mut self, name: &Ident) {
        let program = self.program;
        if let Some(id) = program.terms().get_term_by_name(program.types(), name) {
            let place = id.index();
            if place < self.marks.len() {
                self.marks[place] = true;
            }
        }
    }

    /// Whether a term is named.
    fn has(&self, name: &Ident) -> bool {
        let Some(id) = self
            .program
            .terms()
            .get_term_by_name(self.program.types(), name)
        else {
            return false;
        };
        match self.marks.get(id.index()) {
            Some(mark) => *mark,
            None => false,
        }
    }

    /// Marks the terms that a definition names: those of a rule with its root, of an extractor's body, and a converter's.
    fn read_def(&mut self, def: &Def) {
        match def {
            Def::Rule(rule) => self.read_rule(rule),
            Def::Extractor(extractor) => extractor
                .template
                .terms(&mut |_: Pos, sym: &Ident| self.mark(sym)),
            Def::Converter(converter) => self.mark(&converter.term),
            Def::TypeDef(_) | Def::Decl(_) | Def::Extern(_) | Def::Pragma(_) | Def::Kept(_) => {}
        }
    }

    fn read_rule(&mut self, rule: &Rule) {
        rule.pattern
            .terms(&mut |_: Pos, sym: &Ident| self.mark(sym));
        rule.expr.terms(&mut |_: Pos, sym: &Ident| self.mark(sym));
        self.read_iflets(rule.iflets.as_slice());
    }

    fn read_iflets(&mut self, iflets: &[IfLet]) {
        for iflet in iflets {
            iflet
                .pattern
                .terms(&mut |_: Pos, sym: &Ident| self.mark(sym));
            iflet.expr.terms(&mut |_: Pos, sym: &Ident| self.mark(sym));
        }
    }
}

/// Adds the warnings of the declared terms that no rule, extractor's body or converter names.
pub fn warn_of_terms(
    alloc: Global,
    program: &Program,
    defs: &[Def],
    found: &mut Vec<Warning>,
) -> Result<(), AllocError>
    ensures { OnOk result ((files : List SourceFile) → All (DefAt (IsPrintablePos files)) defs.now
        → All (WarningAt (IsPrintablePos files)) found.old.items
        → All (WarningAt (IsPrintablePos files)) found.new.items) }
{
    let named = named_terms(alloc, program, defs)?;
    for def in defs {
        if let Def::Decl(decl) = def {
            if !named.has(&decl.term) {
                found.push(unused(alloc, &decl.term)?)?;
            }
        }
    }
    Ok(())
}

/// The terms that definitions name.
fn named_terms<'a>(
    alloc: Global,
    program: &'a Program,
    defs: &[Def],
) -> Result<Named<'a>, AllocError> {
    let mut named = Named {
        program,
        marks: vec![in alloc; false; program.terms().terms().len()]?,
    };
    for def in defs {
        named.read_def(def);
    }
    Ok(named)
}
