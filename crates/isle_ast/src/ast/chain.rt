//! Chains of bindings: the names that one binds, and the pattern inside it.
ghost use Rattle.std.specs.Prelude.{◌≡◌, IfOk};
ghost use Rattle.isle_ast.specs.Trees.PatternShape.{pattern_of};
ghost use Rattle.isle_ast.specs.Inside.Trees.Innermost.{innermost, names_bound};

use crate::ast::{Ident, Pattern};
use crate::pos::Pos;
use std::alloc::{AllocError, Global};

// A chain `x @ y @ ..` nests without parentheses, so each of these walks is a loop.
impl Pattern {
    /// The pattern that a chain of bindings binds, or the pattern itself where it is no binding.
    pub(crate) fn innermost(&self) -> &Pattern
        ensures { pattern_of result.now ≡ innermost (pattern_of self.now) }
    {
        let mut at = self;
        while let Pattern::BindPattern { subpat, .. } = at {
            at = subpat.get();
        }
        at
    }

    /// The names of a chain of bindings with the bindings' positions, from the outside in.
    pub(crate) fn names_bound(&self, alloc: Global) -> Result<Vec<(Ident, Pos)>, AllocError>
        ensures { IfOk result (λ names. names.items ≡ names_bound (pattern_of self.now)) }
    {
        let mut names = Vec::new(alloc);
        let mut at = self;
        while let Pattern::BindPattern { var, subpat, pos } = at {
            names.push((var.clone()?, *pos))?;
            at = subpat.get();
        }
        Ok(names)
    }
}
