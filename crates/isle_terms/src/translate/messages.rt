//! What the type errors of rules say: names, types and counts.
ghost use Rattle.std.specs.Prelude.{◌≡◌};
ghost use Rattle.isle_ast.specs.Errors.{type_error, IfFault, IsFaultAnd, error_kind, spans_of};
ghost use Rattle.isle_terms.specs.Inside.Readings.Failures.{IsErrorAt};

mod places;
mod texts;

use super::Context;
use super::names::{NumberedTerm, Role};
use crate::translate::bindings::BoundName;
use isle_ast::Refusal;
use isle_ast::ast::{Expr, Ident, Pattern, Rule};
use isle_ast::error::Error;
use isle_ast::pos::Pos;
use isle_rules::{Term, TermFlags};
use isle_types::{TypeEnv, TypeId};
use places::is_outside;
use texts::Integer;

/// Nothing tells the type of an integer.
pub fn untyped_integer(context: &Context<'_>, pos: Pos, val: i128, big: bool) -> Refusal<Error>
    ensures { IfFault result (IsErrorAt type_error pos) }
{
    TypeEnv::type_error_saying(pos, texts::untyped_integer(context, Integer { val, big }))
}

/// A type doesn't have an integer.
pub fn ill_integer(
    context: &Context<'_>,
    pos: Pos,
    val: i128,
    big: bool,
    ty: TypeId,
) -> Refusal<Error>
    ensures { IfFault result (IsErrorAt type_error pos) }
{
    TypeEnv::type_error_saying(pos, texts::ill_integer(context, Integer { val, big }, ty))
}

/// A boolean stands where a value of another type is expected.
pub fn ill_boolean(
    context: &Context<'_>,
    pos: Pos,
    val: bool,
    want: Option<TypeId>,
) -> Refusal<Error>
    ensures { IfFault result (IsErrorAt type_error pos) }
{
    TypeEnv::type_error_saying(pos, texts::ill_boolean(context, val, want))
}

/// A constant is not known.
pub fn unknown_constant(context: &Context<'_>, pos: Pos, name: &Ident) -> Refusal<Error>
    ensures { IfFault result (IsErrorAt type_error pos) }
{
    TypeEnv::type_error_saying(pos, texts::unknown_constant(context, name))
}

/// A constant stands where a value of another type is expected.
pub fn ill_constant(
    context: &Context<'_>,
    pos: Pos,
    name: &Ident,
    ty: TypeId,
    want: Option<TypeId>,
) -> Refusal<Error>
    ensures { IfFault result (IsErrorAt type_error pos) }
{
    TypeEnv::type_error_saying(pos, texts::ill_constant(context, name, ty, want))
}

/// A term is not declared.
pub fn undeclared(context: &Context<'_>, pos: Pos, name: &Ident) -> Refusal<Error>
    ensures { IfFault result (IsErrorAt type_error pos) }
{
    TypeEnv::type_error_saying(pos, texts::undeclared(context, name))
}

/// A term takes another number of arguments than are given.
pub fn ill_count(context: &Context<'_>, pos: Pos, term: &Term, given: usize) -> Refusal<Error>
    ensures { IfFault result (IsErrorAt type_error pos) }
{
    TypeEnv::type_error_saying(pos, texts::ill_count(context, term, given))
}

/// A term can't be used so.
pub fn unusable(context: &Context<'_>, pos: Pos, term: &Term, role: Role) -> Refusal<Error>
    ensures { IfFault result (IsErrorAt type_error pos) }
{
    TypeEnv::type_error_saying(pos, texts::unusable(context, term, role))
}

/// The flags of a term don't allow a call of it.
pub fn not_callable(
    context: &Context<'_>,
    pos: Pos,
    caller: TermFlags,
    called: &NumberedTerm<'_>,
) -> Refusal<Error>
    ensures { IfFault result (IsErrorAt type_error pos) }
{
    TypeEnv::type_error_saying(pos, texts::not_callable(context, caller, called))
}

/// A name of an expression is not bound.
pub fn unbound(context: &Context<'_>, pos: Pos, name: &Ident) -> Refusal<Error>
    ensures { IfFault result (IsErrorAt type_error pos) }
{
    TypeEnv::type_error_saying(pos, texts::unbound(context, name))
}

/// A name of a pattern is bound at another type.
pub fn ill_name(
    context: &Context<'_>,
    pos: Pos,
    name: &Ident,
    bound: BoundName,
    ty: TypeId,
) -> Refusal<Error>
    ensures { IfFault result (IsErrorAt type_error pos) }
{
    TypeEnv::type_error_saying(pos, texts::ill_name(context, name, bound, ty))
}

/// A name before `@` is bound already, and there first.
pub fn bound_already(
    context: &Context<'_>,
    pos: Pos,
    name: &Ident,
    first: Option<Pos>,
) -> Refusal<Error>
    ensures { IfFault result (IsErrorAt type_error pos) }
{
    TypeEnv::type_error_saying(pos, texts::bound_already(context, pos, name, first))
}

/// An expression has another type than is expected, and no converter fits.
pub fn ill_expr(
    context: &Context<'_>,
    pos: Pos,
    expr: &Expr,
    ty: TypeId,
    want: Option<TypeId>,
) -> Refusal<Error>
    ensures { IfFault result (IsErrorAt type_error pos) }
{
    TypeEnv::type_error_saying(pos, texts::ill_expr(context, expr, ty, want))
}

/// A pattern of a term has another type than is expected, and no converter fits.
pub fn ill_pattern(
    context: &Context<'_>,
    pos: Pos,
    pattern: &Pattern,
    ty: TypeId,
    want: TypeId,
) -> Refusal<Error>
    ensures { IfFault result (IsErrorAt type_error pos) }
{
    TypeEnv::type_error_saying(pos, texts::ill_pattern(context, pattern, ty, want))
}

/// The body of a term's extractor uses more arguments than the term takes.
pub fn lacking(context: &Context<'_>, pos: Pos, term: &Term) -> Refusal<Error>
    ensures { IfFault result (IsErrorAt type_error pos) }
{
    TypeEnv::type_error_saying(pos, texts::lacking(context, term))
}

/// A rule of a `multi` term has a priority.
pub fn ill_priority(context: &Context<'_>, pos: Pos, term: &Term) -> Refusal<Error>
    ensures { IfFault result (IsErrorAt type_error pos) }
{
    TypeEnv::type_error_saying(pos, texts::ill_priority(context, term))
}

/// The root of a rule is no declared term.
pub fn ill_root(context: &Context<'_>, pos: Pos, root: &Pattern) -> Refusal<Error>
    ensures { IfFault result (IsErrorAt type_error pos) }
{
    TypeEnv::type_error_saying(pos, texts::ill_root(context, root))
}

/// The type error of a rule. Where it stands outside the rule, as in the body of an extractor, a second line names the rule.
pub fn met(context: &Context<'_>, tree: &Rule, refusal: Refusal<Error>) -> Refusal<Error>
    ensures { IfFault result (λ told. IsFaultAnd refusal
        (λ error. (error_kind told ≡ error_kind error) × (spans_of told ≡ spans_of error))) }
{
    match refusal {
        Refusal::Fault(Error::TypeError { msg, span }) => {
            if !is_outside(tree, span.from) {
                return Refusal::Fault(Error::TypeError { msg, span });
            }
            match texts::met(context, msg) {
                Ok(msg) => Refusal::Fault(Error::TypeError { msg, span }),
                Err(e) => Refusal::Memory(e),
            }
        }
        Refusal::Fault(error) => Refusal::Fault(error),
        Refusal::Memory(e) => Refusal::Memory(e),
    }
}
