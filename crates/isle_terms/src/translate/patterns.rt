//! What patterns stand for: typed patterns, with templates and converters put in.
ghost use Rattle.std.specs.Prelude.{◌≡◌, ◌≤◌, ◌==◌, true, false, Some, None, length, map, ltb, IfOk, IfErr};
ghost use Rattle.std.specs.Option.{option_map};
ghost use Rattle.isle_ast.specs.Trees.PatternShape.{pattern_of, patterns_of};
ghost use Rattle.isle_ast.specs.Trees.PatternTree.{pattern_term, pattern_list, pattern_pos};
ghost use Rattle.isle_rules.specs.TypedRules.{typed_bool, typed_int};
ghost use Rattle.isle_rules.specs.Signatures.{Signature, template_of, has_extractor_form};
ghost use Rattle.isle_rules.specs.Elaboration.{State, bool_number, visible_in, each_at};
ghost use Rattle.isle_terms.specs.Inside.Readings.Outcomes.{stands_for, only_if, use_name, bind_name, use_constant, template_in, extract, fitting};
ghost use Rattle.isle_terms.specs.Inside.Readings.Outcomes.{repair_pattern, use_number, each_pattern, read_pattern};
ghost use Rattle.isle_rules.specs.Shown.ShownTerms.{numbers_of, term_shown};
ghost use Rattle.isle_rules.specs.Shown.ShownRules.{typed_list, typed_shown, pattern_limit, greatest};
ghost use Rattle.isle_terms.specs.Inside.Readings.Failures.{Fails};
ghost use Rattle.isle_terms.specs.Inside.Readings.Contexts.{known_in, numbered_shown};
ghost use Rattle.isle_terms.specs.Inside.Readings.Frames.{put_all, tree_given, trees_given, is_argument, template_at};
ghost use Rattle.isle_terms.specs.Inside.Readings.PatternReading.{reads_in, uses_in, node_in, all_of_type, IsRead, AreRead, HasKnownSymbols};
ghost use Rattle.isle_terms.specs.Inside.Readings.PatternReading.{HaveKnownSymbols};
ghost use Rattle.isle_terms.specs.Inside.Readings.PatternReading.{needed_in};

use super::Context;
use super::bindings::Bindings;
use super::frames::{Given, resolve, resolve_all};
use super::names::{
    Role, fitting_converter, has_number, ill_typed, is_usable, known_constant, known_number,
    known_term, too_large,
};
use crate::translate::messages;
use isle_ast::ast::Ident;
use isle_ast::error::Error;
use isle_ast::pos::Pos;
use isle_ast::{Boxed, Refusal, Seq, ast};
use isle_rules::{ExtractorKind, Pattern, Term, TermKind};
use isle_types::{TermId, TypeId};
use std::alloc::{AllocError, Global};

/// The typed pattern that a tree stands for at a type.
pub fn translate_pattern(
    context: &Context<'_>,
    levels: usize,
    pattern: &ast::Pattern,
    ty: TypeId,
    bindings: &mut Bindings,
) -> Result<Pattern, Refusal<Error>>
    ensures ok { IfOk result (λ made.
        read_pattern (known_in context.now) context.now.max_nodes levels (pattern_of pattern.now) ty.0 bindings.old
        ≡ stands_for (typed_shown context.now.tyenv.now.names made) bindings.new) }
    ensures err { IfErr result (Fails context.now.rule
        (read_pattern (known_in context.now) context.now.max_nodes levels (pattern_of pattern.now) ty.0 bindings.old)) }
    ensures symbols { IfOk result (λ made. pattern_limit made ≤ length context.now.tyenv.now.names) }
{
    let part = Given {
        pattern,
        given: &[],
    };
    read_part(context, levels, &part, ty, bindings)
}

/// The typed patterns that trees stand for, each at its type.
pub fn translate_args(
    context: &Context<'_>,
    levels: usize,
    pos: Pos,
    args: &[ast::Pattern],
    tys: &[TypeId],
    bindings: &mut Bindings,
) -> Result<Vec<Pattern>, Refusal<Error>>
    requires { length args.now ≡ length tys.now }
    ensures ok { IfOk result (λ made. each_pattern (read_pattern (known_in context.now) context.now.max_nodes levels) pos
        (patterns_of args.now) (numbers_of tys.now) bindings.old
        ≡ stands_for (typed_list (map (typed_shown context.now.tyenv.now.names) made.items)) bindings.new) }
    ensures err { IfErr result (Fails context.now.rule
        (each_pattern (read_pattern (known_in context.now) context.now.max_nodes levels) pos
        (patterns_of args.now) (numbers_of tys.now) bindings.old)) }
    ensures symbols { IfOk result (λ made. greatest (map pattern_limit made.items) ≤ length context.now.tyenv.now.names) }
{
    let parts = resolve_all(context.alloc, args, &[])?;
    read_each(context, levels, pos, parts.as_slice(), tys, bindings)
}

/// A name alone: a new variable, or one that is bound.
fn read_name(
    context: &Context<'_>,
    name: &Ident,
    pos: Pos,
    ty: TypeId,
    bindings: &mut Bindings,
) -> Result<Pattern, Refusal<Error>>
    ensures ok { IfOk result (IsRead context.now
        (use_name pos (visible_in bindings.old.scope name.now.0) name.now.0 ty.0 bindings.old) bindings.new) }
    ensures err { IfErr result (Fails context.now.rule (use_name pos (visible_in bindings.old.scope name.now.0) name.now.0 ty.0 bindings.old)) }
    ensures symbols { IfOk result (HasKnownSymbols context.now) }
{
    match bindings.lookup(&name.0) {
        None => {
            let wildcard = Boxed::new(context.alloc, Pattern::Wildcard(ty))?;
            let var = bindings.bind(name, ty)?;
            Ok(Pattern::BindPattern(ty, var, wildcard))
        }
        Some(bound) => {
            if bound.ty == ty {
                Ok(Pattern::Var(ty, bound.var))
            } else {
                Err(messages::ill_name(context, pos, name, bound, ty))
            }
        }
    }
}

/// A name before `@`: a new variable.
fn bind_below(
    context: &Context<'_>,
    name: &Ident,
    pos: Pos,
    ty: TypeId,
    below: Pattern,
    bindings: &mut Bindings,
) -> Result<Pattern, Refusal<Error>>
    requires symbols { HasKnownSymbols context.now below }
    ensures ok { IfOk result (IsRead context.now
        (bind_name pos (visible_in bindings.old.scope name.now.0) name.now.0 ty.0 (typed_shown context.now.tyenv.now.names below) bindings.old)
        bindings.new) }
    ensures err { IfErr result (Fails context.now.rule
        (bind_name pos (visible_in bindings.old.scope name.now.0) name.now.0 ty.0 (typed_shown context.now.tyenv.now.names below) bindings.old)) }
    ensures symbols { IfOk result (HasKnownSymbols context.now) }
{
    match bindings.lookup(&name.0) {
        None => {
            let below = Boxed::new(context.alloc, below)?;
            let var = bindings.bind(name, ty)?;
            Ok(Pattern::BindPattern(ty, var, below))
        }
        Some(bound) => {
            let first = bindings.place(bound.var);
            Err(messages::bound_already(context, pos, name, first))
        }
    }
}

/// A boolean, whose type is `bool`.
fn read_bool(
    context: &Context<'_>,
    val: bool,
    pos: Pos,
    ty: TypeId,
) -> Result<Pattern, Refusal<Error>>
    ensures ok { (s : State) → IfOk result (IsRead context.now (only_if (ty.0 == bool_number) pos (stands_for (typed_bool ty.0 val) s)) s) }
    ensures err { (s : State) → IfErr result (Fails context.now.rule (only_if (ty.0 == bool_number) pos (stands_for (typed_bool ty.0 val) s))) }
    ensures symbols { IfOk result (HasKnownSymbols context.now) }
{
    if ty.index() == 0 {
        Ok(Pattern::ConstBool(ty, val))
    } else {
        Err(messages::ill_boolean(context, pos, val, Some(ty)))
    }
}

/// An integer, whose type has it.
fn read_int(
    context: &Context<'_>,
    val: &i128,
    big: bool,
    pos: Pos,
    ty: TypeId,
) -> Result<Pattern, Refusal<Error>>
    ensures ok { (s : State) → IfOk result (IsRead context.now
        (only_if ((known_in context.now).has_number ty.0 val.now big) pos (stands_for (typed_int ty.0 val.now) s)) s) }
    ensures err { (s : State) → IfErr result (Fails context.now.rule
        (only_if ((known_in context.now).has_number ty.0 val.now big) pos (stands_for (typed_int ty.0 val.now) s))) }
    ensures symbols { IfOk result (HasKnownSymbols context.now) }
{
    if has_number(context.tyenv, ty, *val, big) {
        Ok(Pattern::ConstInt(ty, *val))
    } else {
        Err(messages::ill_integer(context, pos, *val, big, ty))
    }
}

/// A constant, which has its own type.
fn read_constant(
    context: &Context<'_>,
    name: &Ident,
    pos: Pos,
    ty: TypeId,
) -> Result<Pattern, Refusal<Error>>
    ensures ok { (s : State) → IfOk result (IsRead context.now
        (use_constant pos ((known_in context.now).constant name.now.0) name.now.0 ty.0 s) s) }
    ensures err { (s : State) → IfErr result (Fails context.now.rule
        (use_constant pos ((known_in context.now).constant name.now.0) name.now.0 ty.0 s)) }
    ensures symbols { IfOk result (HasKnownSymbols context.now) }
{
    match known_constant(context, name) {
        None => Err(messages::unknown_constant(context, pos, name)),
        Some(constant) => {
            if constant.ty == ty {
                Ok(Pattern::ConstPrim(ty, constant.name))
            } else {
                let known = constant.ty;
                Err(messages::ill_constant(context, pos, name, known, Some(ty)))
            }
        }
    }
}

/// The template that is put in for a use of a term, if there is one.
fn template_for<'a>(context: &Context<'_>, term: &'a Term) -> Option<&'a ast::Pattern>
    ensures { option_map (λ template. pattern_of template.now) result
        ≡ template_in (known_in context.now) (term_shown context.now.tyenv.now.names term.now) }
{
    if !context.termenv.expand_internal_extractors() {
        return None;
    }
    match &term.kind {
        TermKind::Decl {
            extractor_kind: Some(ExtractorKind::InternalExtractor { template }),
            ..
        } => Some(template),
        _ => None,
    }
}

/// Whether a use of a term gives fewer arguments than its template needs.
fn lacks_argument(context: &Context<'_>, id: TermId, count: usize) -> bool
    ensures { (term : Signature) → (known_in context.now).signature id.0 ≡ Some term
        → result ≡ ltb count (needed_in (template_of term.form)) }
{
    match context.termenv.needed_arguments(id) {
        Some(needed) => count < needed,
        None => false,
    }
}

/// One type, once for each part.
fn repeated(alloc: Global, ty: TypeId, parts: &[Given<'_>]) -> Result<Vec<TypeId>, AllocError>
    ensures { IfOk result (λ made. made.items ≡ map (λ _. ty) parts.now) }
{
    parts.iter().map(|_| ty).collect(alloc)
}

/// What a part of a template stands for in at most so many levels.
#[cycle(pattern)]
fn read_part(
    context: &Context<'_>,
    levels: usize,
    part: &Given<'_>,
    ty: TypeId,
    bindings: &mut Bindings,
) -> Result<Pattern, Refusal<Error>>
    ensures ok { IfOk result (IsRead context.now (reads_in context.now levels (tree_given part.now) ty.0 bindings.old) bindings.new) }
    ensures err { IfErr result (Fails context.now.rule (reads_in context.now levels (tree_given part.now) ty.0 bindings.old)) }
    ensures symbols { IfOk result (HasKnownSymbols context.now) }
{
    if levels == 0 {
        return Err(too_large(context, "a pattern of this rule is too deep"));
    }
    if !bindings.count_node(context.max_nodes) {
        return Err(too_large(context, "this rule has too many nodes"));
    }
    read_node(
        context,
        levels - 1,
        &resolve(&*part.pattern, &*part.given),
        ty,
        bindings,
    )
}

/// What a node that is no argument of a template stands for.
#[cycle(pattern)]
fn read_node(
    context: &Context<'_>,
    levels: usize,
    part: &Given<'_>,
    ty: TypeId,
    bindings: &mut Bindings,
) -> Result<Pattern, Refusal<Error>>
    requires { is_argument (template_at part.now) ≡ true → tree_given part.now ≡ template_at part.now }
    ensures ok { IfOk result (IsRead context.now (node_in context.now levels (tree_given part.now) ty.0 bindings.old) bindings.new) }
    ensures err { IfErr result (Fails context.now.rule (node_in context.now levels (tree_given part.now) ty.0 bindings.old)) }
    ensures symbols { IfOk result (HasKnownSymbols context.now) }
{
    match part.pattern {
        ast::Pattern::Var { var, pos } => read_name(context, var, *pos, ty, bindings),
        ast::Pattern::BindPattern { var, subpat, pos } => {
            let below = Given {
                pattern: &*subpat.get(),
                given: &*part.given,
            };
            let below = read_part(context, levels, &below, ty, bindings)?;
            bind_below(context, var, *pos, ty, below, bindings)
        }
        ast::Pattern::ConstBool { val, pos } => read_bool(context, *val, *pos, ty),
        ast::Pattern::ConstInt { val, big, pos } => read_int(context, val, *big, *pos, ty),
        ast::Pattern::ConstPrim { val, pos } => read_constant(context, val, *pos, ty),
        ast::Pattern::Term { sym, args, pos } => {
            let args = args.as_slice();
            read_term(context, levels, part, sym, args, *pos, ty, bindings)
        }
        ast::Pattern::Wildcard { .. } => Ok(Pattern::Wildcard(ty)),
        ast::Pattern::And { subpats, pos } => {
            let all = subpats.as_slice();
            read_and(context, levels, &*part.given, all, *pos, ty, bindings)
        }
        ast::Pattern::MacroArg { pos, .. } => Err(ill_typed(
            context,
            *pos,
            "an argument of a template has no pattern",
        )),
    }
}

/// What patterns that all match one value stand for.
#[cycle(pattern)]
fn read_and(
    context: &Context<'_>,
    levels: usize,
    given: &[Given<'_>],
    patterns: &[ast::Pattern],
    pos: Pos,
    ty: TypeId,
    bindings: &mut Bindings,
) -> Result<Pattern, Refusal<Error>>
    ensures ok { IfOk result (IsRead context.now
        (all_of_type (reads_in context.now levels) pos (put_all (map tree_given given.now) (patterns_of patterns.now)) ty.0 bindings.old)
        bindings.new) }
    ensures err { IfErr result (Fails context.now.rule
        (all_of_type (reads_in context.now levels) pos (put_all (map tree_given given.now) (patterns_of patterns.now)) ty.0 bindings.old)) }
    ensures symbols { IfOk result (HasKnownSymbols context.now) }
{
    let parts = resolve_all(context.alloc, &*patterns, &*given)?;
    let tys = repeated(context.alloc, ty, parts.as_slice())?;
    let made = read_each(
        context,
        levels,
        pos,
        parts.as_slice(),
        tys.as_slice(),
        bindings,
    )?;
    Ok(Pattern::And(ty, Seq::new(made)))
}

/// What a use of a term stands for, which is the whole part.
#[cycle(pattern)]
fn read_term(
    context: &Context<'_>,
    levels: usize,
    part: &Given<'_>,
    sym: &Ident,
    args: &[ast::Pattern],
    pos: Pos,
    ty: TypeId,
    bindings: &mut Bindings,
) -> Result<Pattern, Refusal<Error>>
    requires { template_at part.now ≡ pattern_term sym.now (patterns_of args.now) pos }
    ensures ok { IfOk result (IsRead context.now (node_in context.now levels (tree_given part.now) ty.0 bindings.old) bindings.new) }
    ensures err { IfErr result (Fails context.now.rule (node_in context.now levels (tree_given part.now) ty.0 bindings.old)) }
    ensures symbols { IfOk result (HasKnownSymbols context.now) }
{
    let Some(id) = known_number(context, sym) else {
        return Err(messages::undeclared(context, pos, sym));
    };
    let Some(term) = known_term(context, id) else {
        return Err(messages::undeclared(context, pos, sym));
    };
    if term.ret_ty != ty {
        return read_repaired(context, levels, part, term.ret_ty, ty, pos, bindings);
    }
    let args = resolve_all(context.alloc, &*args, &*part.given)?;
    read_use(context, levels, id, term, args.as_slice(), pos, bindings)
}

/// What a part of one type stands for at another: a converter that fits is put around it.
#[cycle(pattern)]
fn read_repaired(
    context: &Context<'_>,
    levels: usize,
    part: &Given<'_>,
    inner: TypeId,
    outer: TypeId,
    pos: Pos,
    bindings: &mut Bindings,
) -> Result<Pattern, Refusal<Error>>
    requires { pattern_pos (tree_given part.now) ≡ pos }
    ensures ok { IfOk result (IsRead context.now
        (repair_pattern (uses_in context.now levels) (fitting (known_in context.now) has_extractor_form inner.0 outer.0)
        (tree_given part.now) bindings.old) bindings.new) }
    ensures err { IfErr result (Fails context.now.rule
        (repair_pattern (uses_in context.now levels) (fitting (known_in context.now) has_extractor_form inner.0 outer.0)
        (tree_given part.now) bindings.old)) }
    ensures symbols { IfOk result (HasKnownSymbols context.now) }
{
    let Some(fit) = fitting_converter(context, Role::Extractor, inner, outer) else {
        return Err(messages::ill_pattern(context, pos, &*part.pattern, inner, outer));
    };
    if levels == 0 {
        return Err(too_large(context, "a pattern of this rule is too deep"));
    }
    if !bindings.count_node(context.max_nodes) {
        return Err(too_large(context, "this rule has too many nodes"));
    }
    read_use(
        context,
        levels - 1,
        fit.id,
        fit.term,
        std::array::from_ref(part),
        pos,
        bindings,
    )
}

/// What a use of a term at its own type stands for: its template, or the term itself.
#[cycle(pattern)]
fn read_use(
    context: &Context<'_>,
    levels: usize,
    id: TermId,
    term: &Term,
    args: &[Given<'_>],
    pos: Pos,
    bindings: &mut Bindings,
) -> Result<Pattern, Refusal<Error>>
    requires { (known_in context.now).signature id.0 ≡ Some (term_shown context.now.tyenv.now.names term.now) }
    ensures ok { IfOk result (IsRead context.now
        (extract (known_in context.now) (reads_in context.now levels) pos id.0 (term_shown context.now.tyenv.now.names term.now)
        (trees_given args.now) bindings.old) bindings.new) }
    ensures err { IfErr result (Fails context.now.rule
        (extract (known_in context.now) (reads_in context.now levels) pos id.0 (term_shown context.now.tyenv.now.names term.now)
        (trees_given args.now) bindings.old)) }
    ensures symbols { IfOk result (HasKnownSymbols context.now) }
{
    if args.len() != term.arg_tys.as_slice().len() {
        return Err(messages::ill_count(context, pos, term, args.len()));
    }
    if !is_usable(term, Role::Extractor) {
        return Err(messages::unusable(context, pos, term, Role::Extractor));
    }
    match template_for(context, &*term) {
        None => {
            let made = read_each(
                context,
                levels,
                pos,
                &*args,
                term.arg_tys.as_slice(),
                bindings,
            )?;
            Ok(Pattern::Term(term.ret_ty, id, Seq::new(made)))
        }
        Some(template) => {
            if lacks_argument(context, id, args.len()) {
                return Err(messages::lacking(context, pos, term));
            }
            let body = Given {
                pattern: &*template,
                given: &*args,
            };
            read_part(context, levels, &body, term.ret_ty, bindings)
        }
    }
}

/// What parts stand for, each at its type.
#[cycle(pattern)]
fn read_each(
    context: &Context<'_>,
    levels: usize,
    pos: Pos,
    parts: &[Given<'_>],
    tys: &[TypeId],
    bindings: &mut Bindings,
) -> Result<Vec<Pattern>, Refusal<Error>>
    requires { length parts.now ≡ length tys.now }
    ensures ok { IfOk result (λ made. AreRead context.now
        (each_pattern (reads_in context.now levels) pos (trees_given parts.now) (numbers_of tys.now) bindings.old) bindings.new made.items) }
    ensures err { IfErr result (Fails context.now.rule
        (each_pattern (reads_in context.now levels) pos (trees_given parts.now) (numbers_of tys.now) bindings.old)) }
    ensures symbols { IfOk result (λ made. HaveKnownSymbols context.now made.items) }
{
    let mut all = Vec::with_capacity(context.alloc, parts.len())?;
    for i in 0..parts.len() {
        all.push(read_part(context, levels, &parts[i], tys[i], bindings)?)?;
    }
    Ok(all)
}
