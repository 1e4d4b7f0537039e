//! Visits of typed patterns, which tell a visitor what values are to fit, and bind variables.
ghost use Rattle.std.specs.Prelude.{◌≡◌, IfOk, IfErr};
ghost use Rattle.isle_rules.specs.declared.visit.fault.VisitFault.TheVariants.{Memory};
ghost use Rattle.isle_rules.specs.Visits.Runs.{asks, on_some, stuck, listed};
ghost use Rattle.isle_rules.specs.Visits.VisitScopes.{scope_of, with_scope};
ghost use Rattle.isle_rules.specs.Visits.InternedTrees.{pattern_of, patterns_of, term_pattern};
ghost use Rattle.isle_rules.specs.Visits.VisitorCalls.{opening, always_extracts};
ghost use Rattle.isle_rules.specs.Visits.Events.{visits, visits_all, visits_each};

use crate::env::TermEnv;
use crate::rules::Pattern;
use crate::terms::{ExtractorKind, TermKind};
use crate::visit::scope::{bind, look_up};
use crate::visit::{PatternVisitor, VisitFault};
use isle_types::{TermId, TypeId, VarId};
use std::alloc::Global;
use std::collections::HashMap;

/// Whether an extractor always gives its outputs.
fn always_gives(kind: &ExtractorKind) -> bool
    ensures { result ≡ always_extracts kind.now }
{
    match kind {
        ExtractorKind::InternalExtractor { .. } => false,
        ExtractorKind::ExternalExtractor { infallible, .. } => *infallible,
    }
}

/// The types in a list of their own.
fn copy_types(alloc: Global, types: &[TypeId]) -> Result<Vec<TypeId>, VisitFault>
    ensures same { IfOk result (λ copy. copy.items ≡ types.now) }
    ensures refused { IfErr result (λ fault. fault ≡ Memory) }
{
    let mut copy = Vec::new(alloc);
    copy.extend_from_slice(types)?;
    Ok(copy)
}

/// Tells that a value is to fit a pattern of a term.
fn open<V: PatternVisitor>(
    alloc: Global,
    visitor: &mut V,
    input: V::PatternId,
    ty: TypeId,
    id: TermId,
    termenv: &TermEnv,
) -> Result<Vec<V::PatternId>, VisitFault>
    ensures { on_some (opening termenv.now.terms ty id input) (λ call. asks V.pattern_step call) stuck visitor.old (listed result) visitor.new }
{
    let Some(term) = termenv.get_term(id) else {
        return Err(VisitFault::Undefined);
    };
    let arg_tys = term.arg_tys.as_slice();
    match &term.kind {
        TermKind::EnumVariant { variant } => visitor.add_match_variant(
            input, ty, arg_tys, *variant,
        ),
        TermKind::Struct => visitor.add_extract_struct(input, ty, arg_tys),
        TermKind::Decl {
            flags,
            extractor_kind,
            ..
        } => match extractor_kind {
            None => Err(VisitFault::Undefined),
            Some(kind) => {
                let output_tys = copy_types(alloc, arg_tys)?;
                let infallible = always_gives(kind) && !flags.multi;
                visitor.add_extract(input, term.ret_ty, output_tys, id, infallible, flags.multi)
            }
        },
    }
}

impl Pattern {
    /// Tells the visitor of the pattern, at the value `input`. `vars` gets the variables that the pattern binds.
    #[cycle(visit_pattern)]
    pub fn visit<V: PatternVisitor>(
        &self,
        alloc: Global,
        visitor: &mut V,
        input: V::PatternId,
        termenv: &TermEnv,
        vars: &mut HashMap<VarId, V::PatternId>,
    ) -> Result<(), VisitFault>
        ensures { visits V.pattern_step termenv.now.terms (pattern_of self.now) input (scope_of vars.old)
            visitor.old (with_scope result (scope_of vars.new)) visitor.new }
    {
        match self {
            Pattern::BindPattern(_, var, subpat) => {
                bind(vars, *var, input)?;
                subpat.get().visit(alloc, visitor, input, termenv, vars)
            }
            Pattern::Var(ty, var) => match look_up(vars, *var) {
                Some(other) => visitor.add_match_equal(input, other, *ty),
                None => Err(VisitFault::Undefined),
            },
            Pattern::ConstBool(ty, val) => visitor.add_match_bool(input, *ty, *val),
            Pattern::ConstInt(ty, val) => visitor.add_match_int(input, *ty, *val),
            Pattern::ConstPrim(ty, val) => visitor.add_match_prim(input, *ty, *val),
            Pattern::Term(ty, id, args) => {
                visit_term(
                    *ty,
                    *id,
                    args.as_slice(),
                    alloc,
                    visitor,
                    input,
                    termenv,
                    vars,
                )
            }
            Pattern::Wildcard(_) => Ok(()),
            Pattern::And(_, subpats) => {
                visit_each(subpats.as_slice(), input, alloc, visitor, termenv, vars)
            }
        }
    }
}

/// Tells of a pattern of a term.
#[cycle(visit_pattern)]
fn visit_term<V: PatternVisitor>(
    ty: TypeId,
    id: TermId,
    args: &[Pattern],
    alloc: Global,
    visitor: &mut V,
    input: V::PatternId,
    termenv: &TermEnv,
    vars: &mut HashMap<VarId, V::PatternId>,
) -> Result<(), VisitFault>
    ensures { visits V.pattern_step termenv.now.terms (term_pattern ty id (patterns_of args.now)) input (scope_of vars.old)
        visitor.old (with_scope result (scope_of vars.new)) visitor.new }
{
    let inputs = open(alloc, visitor, input, ty, id, termenv)?;
    visit_all(args, inputs.as_slice(), alloc, visitor, termenv, vars)
}

/// Tells of patterns, each at its value.
#[cycle(visit_pattern)]
fn visit_all<V: PatternVisitor>(
    patterns: &[Pattern],
    inputs: &[V::PatternId],
    alloc: Global,
    visitor: &mut V,
    termenv: &TermEnv,
    vars: &mut HashMap<VarId, V::PatternId>,
) -> Result<(), VisitFault>
    ensures { visits_all V.pattern_step termenv.now.terms (patterns_of patterns.now) inputs.now (scope_of vars.old)
        visitor.old (with_scope result (scope_of vars.new)) visitor.new }
{
    for i in 0..patterns.len() {
        let pattern = &patterns[i];
        if i >= inputs.len() {
            return Err(VisitFault::Undefined);
        }
        pattern.visit(alloc, visitor, inputs[i], termenv, vars)?;
    }
    Ok(())
}

/// Tells of patterns, all at one value.
#[cycle(visit_pattern)]
fn visit_each<V: PatternVisitor>(
    patterns: &[Pattern],
    input: V::PatternId,
    alloc: Global,
    visitor: &mut V,
    termenv: &TermEnv,
    vars: &mut HashMap<VarId, V::PatternId>,
) -> Result<(), VisitFault>
    ensures { visits_each V.pattern_step termenv.now.terms (patterns_of patterns.now) input (scope_of vars.old)
        visitor.old (with_scope result (scope_of vars.new)) visitor.new }
{
    for i in 0..patterns.len() {
        patterns[i].visit(alloc, visitor, input, termenv, vars)?;
    }
    Ok(())
}
