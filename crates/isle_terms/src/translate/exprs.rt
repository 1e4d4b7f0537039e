//! What expressions stand for: typed expressions, with converters put in where another type is expected.
ghost use Rattle.std.specs.Prelude.{◌≡◌, ◌≤◌, true, false, length, map, drop, IfOk, IfErr, OnOk, OnErr};
ghost use Rattle.std.specs.Option.{option_map};
ghost use Rattle.isle_ast.specs.Errors.{type_error, IfFault};
ghost use Rattle.isle_ast.specs.Trees.ExprShape.{expr_of, exprs_of, lets_of};
ghost use Rattle.isle_rules.specs.TypedRules.{TypedBindings, built_bool, more_typed_bindings};
ghost use Rattle.isle_rules.specs.Elaboration.{State, visible_in, bool_number};
ghost use Rattle.isle_terms.specs.Inside.Readings.Outcomes.{Outcome, stands_for, and_then, only_if, is_expected, each_expr, call, repair_expr};
ghost use Rattle.isle_terms.specs.Inside.Readings.Outcomes.{read_expr_use};
ghost use Rattle.isle_terms.specs.Inside.Readings.Outcomes.{call_number, read_variable, read_integer, read_constant, bind_value, bind_values, expr_node};
ghost use Rattle.isle_terms.specs.Inside.Readings.Outcomes.{read_expr};
ghost use Rattle.isle_terms.specs.Inside.Readings.Outcomes.{fitting_wanted};
ghost use Rattle.isle_rules.specs.Shown.ShownTerms.{flags_shown, term_shown, numbers_of};
ghost use Rattle.isle_rules.specs.Shown.ShownRules.{built_shown, built_list, binding_list, expr_limit, greatest, greatest_of_values};
ghost use Rattle.isle_terms.specs.Inside.Readings.Failures.{Fails, IsErrorAt};
ghost use Rattle.isle_terms.specs.Inside.Readings.Contexts.{known_in, numbered_shown, expected};
ghost use Rattle.isle_terms.specs.Inside.Readings.ExprReadings.{is_call, read_let, binding_shown, binding_limit};

use super::Context;
use super::bindings::Bindings;
use super::names::{
    NumberedTerm, Role, fitting_converter, has_number, is_callable, is_usable, known_constant,
    known_number, known_term, too_large,
};
use crate::translate::messages;
use isle_ast::ast::{self, Ident};
use isle_ast::error::Error;
use isle_ast::pos::Pos;
use isle_ast::{Boxed, Refusal, Seq};
use isle_rules::{Expr, TermFlags};
use isle_types::{TypeId, VarId};
use std::array;

/// Whether a type is the one that is expected, if one is.
fn is_expected(want: Option<TypeId>, ty: TypeId) -> bool
    ensures { result ≡ is_expected (expected want) ty.0 }
{
    match want {
        None => true,
        Some(wanted) => wanted == ty,
    }
}

/// An integer: one type must be expected, and have it.
fn translate_int(
    context: &Context<'_>,
    pos: Pos,
    val: i128,
    big: bool,
    want: Option<TypeId>,
) -> Result<Expr, Refusal<Error>>
    ensures ok { IfOk result (λ made. (s : State) → read_integer (known_in context.now) pos val big (expected want) s
        ≡ stands_for (built_shown context.now.tyenv.now.names made) s) }
    ensures err { IfErr result (λ e. (s : State)
        → Fails context.now.rule (read_integer (known_in context.now) pos val big (expected want) s) e) }
    ensures symbols { IfOk result (λ made. expr_limit made ≤ length context.now.tyenv.now.names) }
{
    let Some(ty) = want else {
        return Err(messages::untyped_integer(context, pos, val, big));
    };
    if has_number(context.tyenv, ty, val, big) {
        Ok(Expr::ConstInt(ty, val))
    } else {
        Err(messages::ill_integer(context, pos, val, big, ty))
    }
}

/// A boolean.
fn translate_bool(
    context: &Context<'_>,
    pos: Pos,
    val: bool,
    want: Option<TypeId>,
) -> Result<Expr, Refusal<Error>>
    ensures ok { IfOk result (λ made. (s : State) → only_if (is_expected (expected want) bool_number) pos (stands_for (built_bool bool_number val) s)
        ≡ stands_for (built_shown context.now.tyenv.now.names made) s) }
    ensures err { IfErr result (λ e. (s : State)
        → Fails context.now.rule (only_if (is_expected (expected want) bool_number) pos (stands_for (built_bool bool_number val) s)) e) }
    ensures symbols { IfOk result (λ made. expr_limit made ≤ length context.now.tyenv.now.names) }
{
    if is_expected(want, TypeId::BOOL) {
        Ok(Expr::ConstBool(TypeId::BOOL, val))
    } else {
        Err(messages::ill_boolean(context, pos, val, want))
    }
}

/// A constant.
fn translate_constant(
    context: &Context<'_>,
    pos: Pos,
    name: &Ident,
    want: Option<TypeId>,
) -> Result<Expr, Refusal<Error>>
    ensures ok { IfOk result (λ made. (s : State) → read_constant pos ((known_in context.now).constant name.now.0) name.now.0 (expected want) s
        ≡ stands_for (built_shown context.now.tyenv.now.names made) s) }
    ensures err { IfErr result (λ e. (s : State)
        → Fails context.now.rule (read_constant pos ((known_in context.now).constant name.now.0) name.now.0 (expected want) s) e) }
    ensures symbols { IfOk result (λ made. expr_limit made ≤ length context.now.tyenv.now.names) }
{
    let Some(constant) = known_constant(context, name) else {
        return Err(messages::unknown_constant(context, pos, name));
    };
    if is_expected(want, constant.ty) {
        Ok(Expr::ConstPrim(constant.ty, constant.name))
    } else {
        Err(messages::ill_constant(context, pos, name, constant.ty, want))
    }
}

/// Checks that a term takes so many arguments and can be called.
fn check_call(
    context: &Context<'_>,
    caller: TermFlags,
    pos: Pos,
    called: &NumberedTerm<'_>,
    count: usize,
) -> Result<(), Refusal<Error>>
    ensures ok { OnOk result (is_call (flags_shown caller) (term_shown context.now.tyenv.now.names called.now.term.now) count ≡ true) }
    ensures err { OnErr result (is_call (flags_shown caller) (term_shown context.now.tyenv.now.names called.now.term.now) count ≡ false) }
    ensures at { IfErr result (λ e. IfFault e (IsErrorAt type_error pos)) }
{
    let term = called.term;
    if count != term.arg_tys.as_slice().len() {
        return Err(messages::ill_count(context, pos, term, count));
    }
    if !is_usable(term, Role::Constructor) {
        return Err(messages::unusable(context, pos, term, Role::Constructor));
    }
    if !is_callable(caller, term) {
        return Err(messages::not_callable(context, pos, caller, called));
    }
    Ok(())
}

/// The converter that fits a type and that which is expected.
fn converter_wanted<'a>(
    context: &Context<'a>,
    inner: TypeId,
    want: Option<TypeId>,
) -> Option<NumberedTerm<'a>>
    ensures { option_map (numbered_shown context.now.tyenv.now.names) result
        ≡ fitting_wanted (known_in context.now) inner.0 (expected want) }
{
    fitting_converter(context, Role::Constructor, inner, want?)
}

/// The expression that a tree stands for in so many levels, at a type or at none.
#[cycle(expr)]
pub fn translate_expr(
    context: &Context<'_>,
    levels: usize,
    caller: TermFlags,
    expr: &ast::Expr,
    want: Option<TypeId>,
    bindings: &mut Bindings,
) -> Result<Expr, Refusal<Error>>
    ensures ok { IfOk result (λ made. read_expr (known_in context.now) (flags_shown caller) context.now.max_nodes levels
        (expr_of expr.now) (expected want) bindings.old ≡ stands_for (built_shown context.now.tyenv.now.names made) bindings.new) }
    ensures err { IfErr result (Fails context.now.rule (read_expr (known_in context.now) (flags_shown caller) context.now.max_nodes levels
        (expr_of expr.now) (expected want) bindings.old)) }
    ensures symbols { IfOk result (λ made. expr_limit made ≤ length context.now.tyenv.now.names) }
    ensures scope { OnOk result (bindings.new.scope ≡ bindings.old.scope) }
{
    if levels == 0 {
        return Err(too_large(context, "this rule nests too deep"));
    }
    if !bindings.count_node(context.max_nodes) {
        return Err(too_large(context, "this rule has too many nodes"));
    }
    translate_node(context, levels - 1, caller, expr, want, bindings)
}

/// The expression that a tree stands for, where what stands below it has so many levels.
#[cycle(expr)]
fn translate_node(
    context: &Context<'_>,
    levels: usize,
    caller: TermFlags,
    expr: &ast::Expr,
    want: Option<TypeId>,
    bindings: &mut Bindings,
) -> Result<Expr, Refusal<Error>>
    ensures ok { IfOk result (λ made. expr_node (known_in context.now) (flags_shown caller)
        (read_expr (known_in context.now) (flags_shown caller) context.now.max_nodes levels)
        (read_expr_use (known_in context.now) (flags_shown caller) context.now.max_nodes levels)
        (expr_of expr.now) (expected want) bindings.old ≡ stands_for (built_shown context.now.tyenv.now.names made) bindings.new) }
    ensures err { IfErr result (Fails context.now.rule (expr_node (known_in context.now) (flags_shown caller)
        (read_expr (known_in context.now) (flags_shown caller) context.now.max_nodes levels)
        (read_expr_use (known_in context.now) (flags_shown caller) context.now.max_nodes levels)
        (expr_of expr.now) (expected want) bindings.old)) }
    ensures symbols { IfOk result (λ made. expr_limit made ≤ length context.now.tyenv.now.names) }
    ensures scope { OnOk result (bindings.new.scope ≡ bindings.old.scope) }
{
    match expr {
        ast::Expr::ConstInt { val, big, pos } => translate_int(context, *pos, *val, *big, want),
        ast::Expr::ConstBool { val, pos } => translate_bool(context, *pos, *val, want),
        ast::Expr::ConstPrim { val, pos } => translate_constant(context, *pos, val, want),
        ast::Expr::Var { name, pos } => translate_variable(
            context, levels, caller, expr, name, *pos, want, bindings,
        ),
        ast::Expr::Term { sym, args, pos } => translate_term(
            context,
            levels,
            caller,
            expr,
            sym,
            args.as_slice(),
            *pos,
            want,
            bindings,
        ),
        ast::Expr::Let { defs, body, .. } => translate_let(
            context,
            levels,
            caller,
            defs.as_slice(),
            body.get(),
            want,
            bindings,
        ),
    }
}

/// A variable, or a call of a converter of it.
#[cycle(expr)]
fn translate_variable(
    context: &Context<'_>,
    levels: usize,
    caller: TermFlags,
    expr: &ast::Expr,
    name: &Ident,
    pos: Pos,
    want: Option<TypeId>,
    bindings: &mut Bindings,
) -> Result<Expr, Refusal<Error>>
    ensures ok { IfOk result (λ made. read_variable (known_in context.now)
        (read_expr_use (known_in context.now) (flags_shown caller) context.now.max_nodes levels)
        pos (visible_in bindings.old.scope name.now.0) (expr_of expr.now) (expected want) bindings.old
        ≡ stands_for (built_shown context.now.tyenv.now.names made) bindings.new) }
    ensures err { IfErr result (Fails context.now.rule (read_variable (known_in context.now)
        (read_expr_use (known_in context.now) (flags_shown caller) context.now.max_nodes levels)
        pos (visible_in bindings.old.scope name.now.0) (expr_of expr.now) (expected want) bindings.old)) }
    ensures symbols { IfOk result (λ made. expr_limit made ≤ length context.now.tyenv.now.names) }
    ensures scope { OnOk result (bindings.new.scope ≡ bindings.old.scope) }
{
    let Some(bound) = bindings.lookup(&name.0) else {
        return Err(messages::unbound(context, pos, name));
    };
    if is_expected(want, bound.ty) {
        return Ok(Expr::Var(bound.ty, bound.var));
    }
    translate_repaired(context, levels, caller, expr, bound.ty, want, bindings)
}

/// A call of a term, or a call of a converter of it.
#[cycle(expr)]
fn translate_term(
    context: &Context<'_>,
    levels: usize,
    caller: TermFlags,
    expr: &ast::Expr,
    sym: &Ident,
    args: &[ast::Expr],
    pos: Pos,
    want: Option<TypeId>,
    bindings: &mut Bindings,
) -> Result<Expr, Refusal<Error>>
    ensures ok { IfOk result (λ made. call_number (known_in context.now) (flags_shown caller)
        (read_expr (known_in context.now) (flags_shown caller) context.now.max_nodes levels)
        (read_expr_use (known_in context.now) (flags_shown caller) context.now.max_nodes levels)
        pos ((known_in context.now).term_named sym.now.0) (expr_of expr.now) (exprs_of args.now) (expected want) bindings.old
        ≡ stands_for (built_shown context.now.tyenv.now.names made) bindings.new) }
    ensures err { IfErr result (Fails context.now.rule (call_number (known_in context.now) (flags_shown caller)
        (read_expr (known_in context.now) (flags_shown caller) context.now.max_nodes levels)
        (read_expr_use (known_in context.now) (flags_shown caller) context.now.max_nodes levels)
        pos ((known_in context.now).term_named sym.now.0) (expr_of expr.now) (exprs_of args.now) (expected want) bindings.old)) }
    ensures symbols { IfOk result (λ made. expr_limit made ≤ length context.now.tyenv.now.names) }
    ensures scope { OnOk result (bindings.new.scope ≡ bindings.old.scope) }
{
    let Some(id) = known_number(context, sym) else {
        return Err(messages::undeclared(context, pos, sym));
    };
    let Some(term) = known_term(context, id) else {
        return Err(messages::undeclared(context, pos, sym));
    };
    if !is_expected(want, term.ret_ty) {
        return translate_repaired(context, levels, caller, expr, term.ret_ty, want, bindings);
    }
    let called = NumberedTerm {
        id,
        term,
        is_put: false,
    };
    translate_call(context, levels, caller, pos, &called, args, bindings)
}

/// A call of a term at its own type.
#[cycle(expr)]
fn translate_call(
    context: &Context<'_>,
    levels: usize,
    caller: TermFlags,
    pos: Pos,
    called: &NumberedTerm<'_>,
    args: &[ast::Expr],
    bindings: &mut Bindings,
) -> Result<Expr, Refusal<Error>>
    ensures ok { IfOk result (λ made. call (flags_shown caller)
        (read_expr (known_in context.now) (flags_shown caller) context.now.max_nodes levels)
        pos called.now.id.0 (term_shown context.now.tyenv.now.names called.now.term.now) (exprs_of args.now) bindings.old
        ≡ stands_for (built_shown context.now.tyenv.now.names made) bindings.new) }
    ensures err { IfErr result (Fails context.now.rule (call (flags_shown caller)
        (read_expr (known_in context.now) (flags_shown caller) context.now.max_nodes levels)
        pos called.now.id.0 (term_shown context.now.tyenv.now.names called.now.term.now) (exprs_of args.now) bindings.old)) }
    ensures symbols { IfOk result (λ made. expr_limit made ≤ length context.now.tyenv.now.names) }
    ensures scope { OnOk result (bindings.new.scope ≡ bindings.old.scope) }
{
    check_call(context, caller, pos, called, args.len())?;
    let tys = called.term.arg_tys.as_slice();
    let made = translate_each(context, levels, caller, pos, args, tys, bindings)?;
    Ok(Expr::Term(called.term.ret_ty, called.id, Seq::new(made)))
}

/// Expressions, each at its type.
#[cycle(expr)]
fn translate_each(
    context: &Context<'_>,
    levels: usize,
    caller: TermFlags,
    pos: Pos,
    exprs: &[ast::Expr],
    tys: &[TypeId],
    bindings: &mut Bindings,
) -> Result<Vec<Expr>, Refusal<Error>>
    requires { length exprs.now ≡ length tys.now }
    ensures ok { IfOk result (λ made. each_expr (read_expr (known_in context.now) (flags_shown caller) context.now.max_nodes levels)
        pos (exprs_of exprs.now) (numbers_of tys.now) bindings.old
        ≡ stands_for (built_list (map (built_shown context.now.tyenv.now.names) made.items)) bindings.new) }
    ensures err { IfErr result (Fails context.now.rule (each_expr
        (read_expr (known_in context.now) (flags_shown caller) context.now.max_nodes levels)
        pos (exprs_of exprs.now) (numbers_of tys.now) bindings.old)) }
    ensures symbols { IfOk result (λ made. greatest (map expr_limit made.items) ≤ length context.now.tyenv.now.names) }
    ensures scope { OnOk result (bindings.new.scope ≡ bindings.old.scope) }
{
    let mut all = Vec::with_capacity(context.alloc, exprs.len())?;
    for i in 0..exprs.len() {
        let made = translate_expr(context, levels, caller, &exprs[i], Some(tys[i]), bindings)?;
        all.push(made)?;
    }
    Ok(all)
}

/// A call of the converter that fits a type and that which is expected: a node of its own.
#[cycle(expr)]
fn translate_repaired(
    context: &Context<'_>,
    levels: usize,
    caller: TermFlags,
    expr: &ast::Expr,
    inner: TypeId,
    want: Option<TypeId>,
    bindings: &mut Bindings,
) -> Result<Expr, Refusal<Error>>
    ensures ok { IfOk result (λ made. repair_expr
        (read_expr_use (known_in context.now) (flags_shown caller) context.now.max_nodes levels)
        (fitting_wanted (known_in context.now) inner.0 (expected want)) (expr_of expr.now) bindings.old
        ≡ stands_for (built_shown context.now.tyenv.now.names made) bindings.new) }
    ensures err { IfErr result (Fails context.now.rule (repair_expr
        (read_expr_use (known_in context.now) (flags_shown caller) context.now.max_nodes levels)
        (fitting_wanted (known_in context.now) inner.0 (expected want)) (expr_of expr.now) bindings.old)) }
    ensures symbols { IfOk result (λ made. expr_limit made ≤ length context.now.tyenv.now.names) }
    ensures scope { OnOk result (bindings.new.scope ≡ bindings.old.scope) }
{
    let Some(fit) = converter_wanted(context, inner, want) else {
        return Err(messages::ill_expr(context, expr.pos(), expr, inner, want));
    };
    if levels == 0 {
        return Err(too_large(context, "this rule nests too deep"));
    }
    if !bindings.count_node(context.max_nodes) {
        return Err(too_large(context, "this rule has too many nodes"));
    }
    let args = array::from_ref(expr);
    translate_call(
        context,
        levels - 1,
        caller,
        expr.pos(),
        &fit,
        args,
        bindings,
    )
}

/// A `let`: its variables in order, and then its body, which sees them.
#[cycle(expr)]
fn translate_let(
    context: &Context<'_>,
    levels: usize,
    caller: TermFlags,
    defs: &[ast::LetDef],
    body: &ast::Expr,
    want: Option<TypeId>,
    bindings: &mut Bindings,
) -> Result<Expr, Refusal<Error>>
    ensures ok { IfOk result (λ made. read_let (known_in context.now)
        (read_expr (known_in context.now) (flags_shown caller) context.now.max_nodes levels)
        (lets_of defs.now) (expr_of body.now) (expected want) bindings.old
        ≡ stands_for (built_shown context.now.tyenv.now.names made) bindings.new) }
    ensures err { IfErr result (Fails context.now.rule (read_let (known_in context.now)
        (read_expr (known_in context.now) (flags_shown caller) context.now.max_nodes levels)
        (lets_of defs.now) (expr_of body.now) (expected want) bindings.old)) }
    ensures symbols { IfOk result (λ made. expr_limit made ≤ length context.now.tyenv.now.names) }
    ensures scope { OnOk result (bindings.new.scope ≡ bindings.old.scope) }
{
    let made = translate_defs(context, levels, caller, defs, bindings)?;
    let value = translate_expr(context, levels, caller, body, want, bindings)?;
    bindings.leave(defs.len())?;
    Ok(Expr::Let {
        ty: value.ty(),
        bindings: Seq::new(made),
        body: Boxed::new(context.alloc, value)?,
    })
}

/// The variables of a `let`, each after its value and seen by what follows it.
#[cycle(expr)]
fn translate_defs(
    context: &Context<'_>,
    levels: usize,
    caller: TermFlags,
    defs: &[ast::LetDef],
    bindings: &mut Bindings,
) -> Result<Vec<(VarId, TypeId, Boxed<Expr>)>, Refusal<Error>>
    ensures ok { IfOk result (λ made. bind_values (known_in context.now)
        (read_expr (known_in context.now) (flags_shown caller) context.now.max_nodes levels) (lets_of defs.now) bindings.old
        ≡ stands_for (binding_list (map (binding_shown context.now.tyenv.now.names) made.items)) bindings.new) }
    ensures err { IfErr result (Fails context.now.rule (bind_values (known_in context.now)
        (read_expr (known_in context.now) (flags_shown caller) context.now.max_nodes levels) (lets_of defs.now) bindings.old)) }
    ensures symbols { IfOk result (λ made. greatest_of_values (map binding_limit made.items) ≤ length context.now.tyenv.now.names) }
    ensures scope { OnOk result (drop (length defs.now) bindings.new.scope ≡ bindings.old.scope) }
{
    let mut all = Vec::new(context.alloc);
    for i in 0..defs.len() {
        all.push(translate_def(context, levels, caller, &defs[i], bindings)?)?;
    }
    Ok(all)
}

/// A variable of a `let`, after its value.
#[cycle(expr)]
fn translate_def(
    context: &Context<'_>,
    levels: usize,
    caller: TermFlags,
    def: &ast::LetDef,
    bindings: &mut Bindings,
) -> Result<(VarId, TypeId, Boxed<Expr>), Refusal<Error>>
    ensures ok { IfOk result (λ made. (next : State → Outcome TypedBindings) → bind_value
        (read_expr (known_in context.now) (flags_shown caller) context.now.max_nodes levels)
        def.now.ty.1 ((known_in context.now).type_named def.now.ty.0) def.now.var.0 (expr_of def.now.val) next bindings.old
        ≡ and_then (next bindings.new)
        (λ others s. stands_for (more_typed_bindings made.0.0 made.1.0 (built_shown context.now.tyenv.now.names made.2) others) s)) }
    ensures err { IfErr result (λ e. (next : State → Outcome TypedBindings) → Fails context.now.rule (bind_value
        (read_expr (known_in context.now) (flags_shown caller) context.now.max_nodes levels)
        def.now.ty.1 ((known_in context.now).type_named def.now.ty.0) def.now.var.0 (expr_of def.now.val) next bindings.old) e) }
    ensures symbols { IfOk result (λ made. expr_limit made.2 ≤ length context.now.tyenv.now.names) }
    ensures scope { OnOk result (drop 1 bindings.new.scope ≡ bindings.old.scope) }
{
    let Some(ty) = context.tyenv.get_type_by_name(&def.ty) else {
        return Err(context.tyenv.unknown_type(&def.ty));
    };
    let value = translate_expr(context, levels, caller, &def.val, Some(ty), bindings)?;
    let var = bindings.bind(&def.var, ty)?;
    Ok((var, ty, Boxed::new(context.alloc, value)?))
}
