//! How many arguments uses must give so that templates can be put in.
ghost use Rattle.std.specs.Prelude.{◌≡◌, ◌≤◌, map, IfOk, All};
ghost use Rattle.isle_rules.specs.declared.terms.Term.{Term as TermRecord};
ghost use Rattle.isle_rules.specs.Readings.Needs.{needed_of, needed, all_needed};
ghost use Rattle.isle_ast.specs.Trees.PatternShape.{pattern_of, patterns_of};
ghost use Rattle.isle_ast.specs.Inside.Trees.Innermost.{innermost};

use crate::terms::{ExtractorKind, Term, TermKind};
use isle_ast::ast::Pattern;
use std::alloc::{AllocError, Global};

/// The template that a chain of bindings binds, or the template itself where it is no binding.
fn innermost(template: &Pattern) -> &Pattern
    ensures { pattern_of result.now ≡ innermost (pattern_of template.now) }
{
    let mut at = template;
    while let Pattern::BindPattern { subpat, .. } = at {
        at = subpat.get();
    }
    at
}

/// How many arguments a use must give so that this template can be put in.
#[cycle(needed)]
#[tactic(auto, using(crate::proofs::Needs::innermost_needed, isle_ast::proofs::Trees::Innermost::innermost_is_no_binding))]
fn needed_arguments(template: &Pattern) -> usize
    requires { needed (pattern_of template.now) ≤ usize.MAX }
    ensures { result ≡ needed (pattern_of template.now) }
{
    match innermost(template) {
        Pattern::Term { args, .. } => needed_by_all(args.as_slice()),
        Pattern::And { subpats, .. } => needed_by_all(subpats.as_slice()),
        Pattern::MacroArg { index, .. } => *index + 1,
        Pattern::BindPattern { .. } => unreachable!(),
        Pattern::Var { .. }
        | Pattern::ConstBool { .. }
        | Pattern::ConstInt { .. }
        | Pattern::ConstPrim { .. }
        | Pattern::Wildcard { .. } => 0,
    }
}

/// How many arguments a use must give for all of these templates.
#[cycle(needed)]
#[tactic(auto, using(isle_ast::proofs::Trees::PatternSizes::most_pattern_size))]
fn needed_by_all(templates: &[Pattern]) -> usize
    requires { all_needed (patterns_of templates.now) ≤ usize.MAX }
    ensures { result ≡ all_needed (patterns_of templates.now) }
{
    let mut most = 0;
    for template in templates {
        most = most.max(needed_arguments(template));
    }
    most
}

/// How many arguments a use of a term must give so that its template can be put in.
fn needed_by_use(term: &Term) -> usize
    requires { needed_of term.now ≤ usize.MAX }
    ensures { result ≡ needed_of term.now }
{
    match &term.kind {
        TermKind::Decl {
            extractor_kind: Some(ExtractorKind::InternalExtractor { template }),
            ..
        } => needed_arguments(template),
        TermKind::EnumVariant { .. } | TermKind::Struct | TermKind::Decl { .. } => 0,
    }
}

/// How many arguments a use of each of some terms must give.
pub fn needs_of(alloc: Global, terms: &[Term]) -> Result<Vec<usize>, AllocError>
    requires { All (λ (term : TermRecord). needed_of term ≤ usize.MAX) terms.now }
    ensures { IfOk result (λ needs. needs.items ≡ map needed_of terms.now) }
{
    let mut needs = Vec::new(alloc);
    for term in terms {
        needs.push(needed_by_use(term))?;
    }
    Ok(needs)
}
