//! A pattern with a chain of bindings put around it.
ghost use Rattle.std.specs.Prelude.{◌≡◌, IfOk};
ghost use Rattle.isle_ast.specs.Trees.PatternShape.{pattern_of};
ghost use Rattle.isle_ast.specs.Trees.Chain.{bound};

use crate::ast::{BoxedPattern, Ident, Pattern};
use crate::pos::Pos;
use std::alloc::{AllocError, Global};

/// The bindings, listed from the outside in, around a pattern.
pub fn wrap(
    alloc: Global,
    mut names: Vec<(Ident, Pos)>,
    inner: Pattern,
) -> Result<Pattern, AllocError>
    ensures { IfOk result (λ pattern. pattern_of pattern ≡ bound names.items (pattern_of inner)) }
{
    let mut pattern = inner;
    'names: while let Some((var, pos)) = names.pop() {
        let subpat = BoxedPattern::new(alloc, pattern)?;
        pattern = Pattern::BindPattern { var, subpat, pos };
    }
    Ok(pattern)
}
