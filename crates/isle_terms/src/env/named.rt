//! The names of a pattern's terms, each at the position of its term.
ghost use Rattle.std.specs.Prelude.{◌≡◌, [], ◌∷◌, ◌++◌, map, false, IfOk};
ghost use Rattle.isle_ast.specs.Trees.PatternShape.{pattern_of};
ghost use Rattle.isle_terms.specs.Inside.Collecting.ExtractorChecks.{named_in};

use isle_ast::Text;
use isle_ast::ast::{Ident, Pattern};
use isle_ast::pos::Pos;
use std::alloc::{AllocError, Global};

/// The terms of a pattern so far, while memory lasts.
#[derive(Drop)]
struct Seen {
    alloc: Global,
    terms: Vec<Ident>,
    refused: bool,
}

impl Seen {
    /// Adds a term, unless one was refused.
    fn add(&mut self, pos: Pos, sym: &Ident)
        ensures earlier { self.new.refused ≡ false → self.old.refused ≡ false }
        ensures added { self.new.refused ≡ false → self.new.terms.items ≡ self.old.terms.items ++ (sym.now.0, pos) ∷ [] }
    {
        if !self.refused {
            self.refused = self.push(pos, sym).is_err();
        }
    }

    fn push(&mut self, pos: Pos, sym: &Ident) -> Result<(), AllocError>
        ensures terms { IfOk result (λ _. self.new.terms.items ≡ self.old.terms.items ++ (sym.now.0, pos) ∷ []) }
        ensures same { self.new.refused ≡ self.old.refused }
    {
        let name = Text::from_str(self.alloc, sym.0.as_str())?;
        self.terms.push(Ident(name, pos))?;
        Ok(())
    }
}

/// The names of a pattern's terms, each at the position of its term.
pub fn named_terms(alloc: Global, pattern: &Pattern) -> Result<Vec<Ident>, AllocError>
    ensures { IfOk result (λ named. named.items ≡ named_in (pattern_of pattern.now)) }
{
    let mut seen = Seen {
        alloc,
        terms: Vec::new(alloc),
        refused: false,
    };
    pattern.terms(&mut |pos: Pos, sym: &Ident| seen.add(pos, sym));
    if seen.refused {
        return Err(AllocError);
    }
    Ok(seen.terms)
}
