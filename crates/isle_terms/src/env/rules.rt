//! Rules typed one by one: their roots, parts, variables and names, with an error for each that can't be typed.
ghost use Rattle.std.specs.Prelude.{◌≡◌, ◌≤◌, ◌==◌, ℕ, List, [], ◌∷◌, ◌++◌, true, length, map, All, IfOk, IfErr, OnOk};
ghost use Rattle.std.specs.Option.{option_map};
ghost use Rattle.std.specs.List.{AllZip};
ghost use Rattle.isle_ast.specs.Errors.{size_error, error_kind, IfFault, IsFaultAnd};
ghost use Rattle.isle_ast.specs.declared.ast.Ident.{Ident as Name};
ghost use Rattle.isle_ast.specs.Trees.PatternShape.{pattern_of};
ghost use Rattle.isle_types.specs.TypeFaults.{IsTypeOrSize};
ghost use Rattle.isle_types.specs.TypeEnvs.{HasMoreNames, CountUp};
ghost use Rattle.isle_rules.specs.declared.rules.BoundVar.{BoundVar as BoundVariable};
ghost use Rattle.isle_rules.specs.TypedRules.{TypedRule};
ghost use Rattle.isle_rules.specs.Signatures.{Declared};
ghost use Rattle.isle_rules.specs.Elaboration.{ElaboratesRule};
ghost use Rattle.isle_terms.specs.RuleReaching.{IsIllRule};
ghost use Rattle.isle_terms.specs.Inside.Readings.Outcomes.{Outcome, stands_for, only_if};
ghost use Rattle.isle_terms.specs.Inside.Readings.RuleOutcomes.{RuleParts};
ghost use Rattle.isle_terms.specs.Inside.Readings.Telling.{rule_of_parts};
ghost use Rattle.isle_rules.specs.Shown.ShownTerms.{flags_shown, form_shown, ShowsDeclared};
ghost use Rattle.isle_terms.specs.Inside.Readings.Scopes.{variable_shown};
ghost use Rattle.isle_terms.specs.Inside.Collecting.RuleRoots.{declared_flags, root_in, may_have_priority, read_rooted, read_whole};
ghost use Rattle.isle_terms.specs.Inside.Shown.PartsShown.{parts_limit};
ghost use Rattle.isle_rules.specs.Shown.RulesShown.{IsShownVariable, IsShownName, IsShownRule};
ghost use Rattle.isle_terms.specs.Inside.Shown.RootsShown.{root_shown, rule_read};
ghost use Rattle.isle_terms.specs.Inside.Collecting.RuleChecks.{HasSomeRoot, IsLargeAt, IsIllAmong, IsLargeAmong, AreTyped};
ghost use Rattle.isle_terms.specs.TypingFaults.{IsLoneSize};
ghost use Rattle.isle_terms.specs.Inside.Shown.TermLimits.{HasKnownSymbols};
ghost use Rattle.isle_terms.specs.Inside.Collecting.Checks.{Checks};
ghost use Rattle.isle_terms.specs.Inside.Readings.Failures.{Fails};
ghost use Rattle.isle_terms.specs.Inside.Readings.Contexts.{known_in};

use crate::translate::bindings::{Bindings, RuleVariable};
use crate::translate::names::{known_number, known_term};
use crate::translate::rules::{Parts, translate_parts};
use crate::translate::{Context, messages};
use isle_ast::ast::{self, Ident};
use isle_ast::error::Error;
use isle_ast::pos::Pos;
use isle_ast::{Refusal, Seq};
use isle_rules::{BoundVar, Rule, Term, TermEnv, TermFlags, TermKind};
use isle_types::{RuleId, Sym, TermId, TypeEnv, VarId};
use std::alloc::{AllocError, Global};

/// The root of a rule: a declared term, and the arguments and the position of the rule's pattern.
#[derive(Clone, Copy)]
struct Root<'a> {
    id: TermId,
    term: &'a Term,
    flags: TermFlags,
    args: &'a [ast::Pattern],
    pos: Pos,
}

/// What is read of a rule.
#[derive(Drop)]
struct ReadRule {
    root: TermId,
    parts: Parts,
    bindings: Bindings,
}

/// The flags of a declared term of a kind.
fn declared_flags(kind: &TermKind) -> Option<TermFlags>
    ensures { (names : List (List ℕ)) → option_map flags_shown result ≡ declared_flags (form_shown names kind.now) }
{
    match kind {
        TermKind::EnumVariant { .. } | TermKind::Struct => None,
        TermKind::Decl { flags, .. } => Some(*flags),
    }
}

/// The root of a rule.
fn rule_root<'a>(context: &Context<'a>, tree: &'a ast::Rule) -> Option<Root<'a>>
    ensures { option_map (root_shown context.now.tyenv.now.names) result ≡ root_in (known_in context.now) (pattern_of tree.now.pattern) }
{
    let ast::Pattern::Term { sym, args, pos } = &tree.pattern else {
        return None;
    };
    let id = known_number(context, sym)?;
    let term = known_term(context, id)?;
    let flags = declared_flags(&term.kind)?;
    Some(Root {
        id,
        term,
        flags,
        args: args.as_slice(),
        pos: *pos,
    })
}

/// Checks that a rule has as many arguments as its term, and no priority where the term is `multi`.
fn check_root(
    context: &Context<'_>,
    root: &Root<'_>,
    tree: &ast::Rule,
) -> Result<(), Refusal<Error>>
    ensures arity { OnOk result (length root.now.args.now ≡ length root.now.term.now.arg_tys) }
    ensures priority { OnOk result (may_have_priority (flags_shown root.now.flags) tree.now.prio ≡ true) }
    ensures err { IfErr result (λ e. (next : Outcome RuleParts) → Fails context.now.rule
        (only_if (length root.now.args.now == length root.now.term.now.arg_tys) root.now.pos
        (only_if (may_have_priority (flags_shown root.now.flags) tree.now.prio) tree.now.pos next)) e) }
{
    if root.args.len() != root.term.arg_tys.as_slice().len() {
        return Err(messages::ill_count(context, root.pos, root.term, root.args.len()));
    }
    if root.flags.multi && tree.prio.is_some() {
        return Err(messages::ill_priority(context, tree.pos, root.term));
    }
    Ok(())
}

/// The root, the typed parts and the variables of a rule.
fn read_rule(
    context: &Context<'_>,
    levels: usize,
    tree: &ast::Rule,
) -> Result<ReadRule, Refusal<Error>>
    ensures ok { IfOk result (λ read. read_whole (known_in context.now) context.now.max_nodes levels tree.now
        ≡ stands_for (rule_read context.now.tyenv.now.names tree.now read) read.bindings) }
    ensures err { IfErr result (Fails context.now.rule (read_whole (known_in context.now) context.now.max_nodes levels tree.now)) }
    ensures symbols { IfOk result (λ read. parts_limit read.parts ≤ length context.now.tyenv.now.names) }
{
    let Some(root) = rule_root(context, tree) else {
        return Err(messages::ill_root(context, tree.pos, &tree.pattern));
    };
    check_root(context, &root, tree)?;
    let (parts, bindings) = translate_parts(
        context, levels, root.term, root.flags, root.pos, root.args, tree,
    )?;
    Ok(ReadRule {
        root: root.id,
        parts,
        bindings,
    })
}

/// The variables of a rule, whose names are interned now.
fn intern_variables(
    alloc: Global,
    tyenv: &mut TypeEnv,
    variables: Vec<RuleVariable>,
    pos: Pos,
) -> Result<Vec<BoundVar>, AllocError>
    ensures shown { IfOk result (λ made. AllZip (IsShownVariable tyenv.new.names) (map variable_shown variables.items) made.items) }
    ensures numbers { IfOk result (λ made. CountUp (λ (variable : BoundVariable). variable.id.0) 0 made.items) }
    ensures same { HasMoreNames tyenv.old tyenv.new }
{
    let mut made = Vec::new(alloc);
    for variable in variables {
        let id = VarId(made.len());
        let ident = Ident(variable.name, pos);
        let name = tyenv.intern_mut(&ident)?;
        made.push(BoundVar {
            id,
            name,
            ty: variable.ty,
        })?;
    }
    Ok(made)
}

/// The name of a rule, if it is written, which is interned now.
fn intern_name(tyenv: &mut TypeEnv, tree: &ast::Rule) -> Result<Option<Sym>, AllocError>
    ensures shown { IfOk result (IsShownName tyenv.new.names (option_map (λ (name : Name). name.0) tree.now.name)) }
    ensures same { HasMoreNames tyenv.old tyenv.new }
{
    match &tree.name {
        Some(name) => Ok(Some(tyenv.intern_mut(name)?)),
        None => Ok(None),
    }
}

/// The typed rule of what is read of a rule.
fn make_rule(
    alloc: Global,
    tyenv: &mut TypeEnv,
    id: RuleId,
    tree: &ast::Rule,
    read: ReadRule,
) -> Result<Rule, AllocError>
    requires { parts_limit read.parts ≤ length tyenv.old.names }
    ensures shown { IfOk result (IsShownRule tyenv.new.names (rule_read tyenv.old.names tree.now read)) }
    ensures id { IfOk result (λ made. made.id ≡ id) }
    ensures same { HasMoreNames tyenv.old tyenv.new }
{
    let ReadRule {
        root,
        parts,
        bindings,
    } = read;
    let Parts { args, iflets, rhs } = parts;
    let vars = intern_variables(alloc, &mut *tyenv, bindings.into_vars(), tree.pos)?;
    let name = intern_name(&mut *tyenv, tree)?;
    Ok(Rule {
        id,
        root_term: root,
        args: Seq::new(args),
        iflets: Seq::new(iflets),
        rhs,
        vars: Seq::new(vars),
        prio: tree.prio.unwrap_or(0),
        pos: tree.pos,
        name,
    })
}

/// The typed rule of a rule, of which the caller knows that its root is a declared term with rules.
pub fn typed_rule(
    alloc: Global,
    tyenv: &mut TypeEnv,
    termenv: &TermEnv,
    id: RuleId,
    levels: usize,
    max_nodes: usize,
    tree: &ast::Rule,
) -> Result<Rule, Refusal<Error>>
    ensures typed { (declared : Declared) → ShowsDeclared tyenv.old termenv.now declared → HasSomeRoot declared tree.now
        → IfOk result (λ made. (typed : TypedRule) × ElaboratesRule declared levels max_nodes tree.now typed × IsShownRule tyenv.new.names typed
        made) }
    ensures id { IfOk result (λ made. made.id ≡ id) }
    ensures fault { (declared : Declared) → ShowsDeclared tyenv.old termenv.now declared → HasSomeRoot declared tree.now
        → IfErr result (λ refusal. IfFault refusal
        (IsTypeOrSize (IsIllRule declared levels tree.now) (IsLargeAt declared levels max_nodes tree.now))) }
    ensures same { HasMoreNames tyenv.old tyenv.new }
{
    let context = Context {
        alloc,
        tyenv: &*tyenv,
        termenv,
        max_nodes,
        rule: tree.pos,
        root: &tree.pattern,
    };
    let read = match read_rule(&context, levels, tree) {
        Ok(read) => read,
        Err(refusal) => return Err(messages::met(&context, tree, refusal)),
    };
    Ok(make_rule(alloc, &mut *tyenv, id, tree, read)?)
}

/// Adds a type error. A size error, alone, and that memory ran out are handed on.
fn keep_fault(
    alloc: Global,
    errors: &mut Vec<Error>,
    refusal: Refusal<Error>,
) -> Result<(), Refusal<Vec<Error>>>
    ensures kept { OnOk result (IsFaultAnd refusal (λ error. (¬ (error_kind error ≡ size_error))
        × (errors.new.items ≡ errors.old.items ++ error ∷ []))) }
    ensures size { IfErr result (λ r. IfFault r (λ alone. IsFaultAnd refusal
        (λ error. (error_kind error ≡ size_error) × (alone.items ≡ error ∷ [])))) }
{
    match refusal {
        Refusal::Memory(e) => Err(Refusal::Memory(e)),
        Refusal::Fault(Error::SizeError { msg, span }) => {
            let mut alone = Vec::new(alloc);
            alone.push(Error::SizeError { msg, span })?;
            Err(Refusal::Fault(alone))
        }
        Refusal::Fault(error) => {
            errors.push(error)?;
            Ok(())
        }
    }
}

/// The typed rules of rules in order, of which the caller knows that their roots are declared terms with rules. Each ill-typed
/// rule is reported; a rule that is too large is the only error.
pub fn collect_rules(
    alloc: Global,
    tyenv: &mut TypeEnv,
    termenv: &TermEnv,
    levels: usize,
    max_nodes: usize,
    rules: &[&ast::Rule],
    errors: &mut Vec<Error>,
) -> Result<Vec<Rule>, Refusal<Vec<Error>>>
    ensures checked { (declared : Declared) → ShowsDeclared tyenv.old termenv.now declared → HasKnownSymbols tyenv.old.names termenv.now
        → All (HasSomeRoot declared) (map (λ rule. rule.now) rules.now)
        → IfOk result (λ made. Checks (IsIllAmong declared levels (map (λ rule. rule.now) rules.now))
        (AreTyped declared levels max_nodes (map (λ rule. rule.now) rules.now) tyenv.new.names made.items) errors.old.items errors.new.items) }
    ensures size { (declared : Declared) → ShowsDeclared tyenv.old termenv.now declared → HasKnownSymbols tyenv.old.names termenv.now
        → All (HasSomeRoot declared) (map (λ rule. rule.now) rules.now)
        → IfErr result (λ refusal. IfFault refusal (λ alone. IsLoneSize (IsLargeAmong declared levels max_nodes (map (λ rule. rule.now) rules.now))
        alone.items)) }
    ensures same { HasMoreNames tyenv.old tyenv.new }
{
    let mut all = Vec::new(alloc);
    for rule in rules {
        let id = RuleId(all.len());
        match typed_rule(alloc, &mut *tyenv, termenv, id, levels, max_nodes, rule) {
            Ok(typed) => all.push(typed)?,
            Err(refusal) => keep_fault(alloc, &mut *errors, refusal)?,
        }
    }
    Ok(all)
}
