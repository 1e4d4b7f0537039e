//! Parts of templates with what is given for the arguments.
ghost use Rattle.std.specs.Prelude.{◌≡◌, true, map, IfOk};
ghost use Rattle.isle_ast.specs.Trees.PatternShape.{pattern_of, patterns_of};
ghost use Rattle.isle_ast.specs.Trees.PatternTree.{pattern_list};
ghost use Rattle.isle_terms.specs.Inside.Readings.Frames.{put, put_all, tree_given, is_argument, template_at};

use isle_ast::ast::Pattern;
use std::alloc::{AllocError, Global};

/// A part of a template, with what is given for the template's arguments.
#[derive(Clone, Copy)]
pub struct Given<'a> {
    pub pattern: &'a Pattern,
    pub given: &'a [Given<'a>],
}

/// What stands where a part of a template is: for an argument what is given for it.
pub fn resolve<'a>(pattern: &'a Pattern, given: &'a [Given<'a>]) -> Given<'a>
    ensures same { tree_given result ≡ put (map tree_given given.now) (pattern_of pattern.now) }
    ensures own { is_argument (template_at result) ≡ true → tree_given result ≡ template_at result }
{
    let mut at = Given { pattern, given };
    while let Pattern::MacroArg { index, .. } = at.pattern {
        match at.given.get(*index) {
            Some(found) => at = *found,
            None => return at,
        }
    }
    at
}

/// What stands where each of some parts of a template is.
pub fn resolve_all<'a>(
    alloc: Global,
    patterns: &'a [Pattern],
    given: &'a [Given<'a>],
) -> Result<Vec<Given<'a>>, AllocError>
    ensures { IfOk result (λ made. pattern_list (map tree_given made.items) ≡ put_all (map tree_given given.now) (patterns_of patterns.now)) }
{
    let mut all = Vec::new(alloc);
    for pattern in patterns {
        all.push(resolve(pattern, given))?;
    }
    Ok(all)
}
