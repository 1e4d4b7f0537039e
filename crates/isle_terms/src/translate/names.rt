//! Terms, constants and converters by their names, ids and types, and how a term may be used in a rule.
ghost use Rattle.std.specs.Prelude.{◌≡◌, ℕ, ◌<◌, List, Some, None, length, slice_get, IfSome, if◌then◌else◌};
ghost use Rattle.std.specs.Option.{option_map};
ghost use Rattle.isle_ast.specs.Errors.{type_error, size_error, IfFault};
ghost use Rattle.isle_types.specs.TypeTables.{name_at};
ghost use Rattle.isle_rules.specs.Signatures.{flags_of};
ghost use Rattle.isle_rules.specs.Elaboration.{may_call};
ghost use Rattle.isle_terms.specs.Inside.Readings.Outcomes.{takes_just, fitting, fitting_term};
ghost use Rattle.isle_rules.specs.Shown.ShownTerms.{flags_shown, form_shown, term_shown, numbers_of};
ghost use Rattle.isle_terms.specs.Inside.Shown.KnownNames.{known_has_number};
ghost use Rattle.isle_terms.specs.Inside.Readings.Failures.{IsErrorAt};
ghost use Rattle.isle_terms.specs.Inside.Readings.Contexts.{known_in, usable_in, numbered_shown};

use super::Context;
use isle_ast::Refusal;
use isle_ast::ast::Ident;
use isle_ast::error::Error;
use isle_ast::pos::Pos;
use isle_rules::{Term, TermFlags, TermKind};
use isle_types::{BuiltinType, Sym, TermId, Type, TypeEnv, TypeId};

/// What a term is used for.
#[derive(Clone, Copy)]
pub enum Role {
    /// To make a value, in an expression.
    Constructor,
    /// To take a value apart, in a pattern.
    Extractor,
}

/// A term with its id.
#[derive(Clone, Copy)]
pub struct NumberedTerm<'a> {
    pub id: TermId,
    pub term: &'a Term,
    /// Whether it is a converter that is put in where no text calls it.
    pub is_put: bool,
}

/// A constant: the symbol of its name, and its type.
#[derive(Clone, Copy)]
pub struct KnownConstant {
    pub name: Sym,
    pub ty: TypeId,
}

/// A type error at a position, or out of memory for its message.
pub fn ill_typed(context: &Context<'_>, pos: Pos, msg: &str) -> Refusal<Error>
    ensures { IfFault result (IsErrorAt type_error pos) }
{
    context.tyenv.type_error(pos, msg)
}

/// A size error at the rule, or out of memory for its message.
pub fn too_large(context: &Context<'_>, msg: &str) -> Refusal<Error>
    ensures { IfFault result (IsErrorAt size_error context.now.rule) }
{
    context.tyenv.size_error(context.rule, msg)
}

/// Whether a type has the number of a literal: an integer type that has it, or a type of the host.
pub fn has_number(tyenv: &TypeEnv, ty: TypeId, val: i128, big: bool) -> bool
    ensures { result ≡ known_has_number (slice_get tyenv.now.types ty.0) val big }
{
    match tyenv.get_type(ty) {
        Some(Type::Builtin(BuiltinType::Int(int))) => int.holds(val, big),
        Some(Type::Primitive(..)) => true,
        _ => false,
    }
}

/// A constant, by its name.
pub fn known_constant(context: &Context<'_>, name: &Ident) -> Option<KnownConstant>
    ensures ty { option_map (λ constant. constant.ty.0) result ≡ (known_in context.now).constant name.now.0 }
    ensures name { IfSome result (λ constant. name_at context.now.tyenv.now.names constant.name ≡ name.now.0) }
    ensures interned { IfSome result (λ constant. constant.name.0 < length context.now.tyenv.now.names) }
{
    let types = context.tyenv.const_types();
    let sym = context.tyenv.intern(name)?;
    let ty = types.get(&sym).copied()?;
    Some(KnownConstant { name: sym, ty })
}

/// The term of an id.
pub fn known_term<'a>(context: &Context<'a>, id: TermId) -> Option<&'a Term>
    ensures { option_map (λ term. term_shown context.now.tyenv.now.names term.now) result ≡ (known_in context.now).signature id.0 }
{
    context.termenv.get_term(id)
}

/// The id of a term, by its name.
pub fn known_number(context: &Context<'_>, name: &Ident) -> Option<TermId>
    ensures { option_map (λ id. id.0) result ≡ (known_in context.now).term_named name.now.0 }
{
    context.termenv.get_term_by_name(context.tyenv, name)
}

/// Whether a term can be used so.
pub fn is_usable(term: &Term, role: Role) -> bool
    ensures { (names : List (List ℕ)) → result ≡ usable_in role (form_shown names term.now.kind) }
{
    match role {
        Role::Constructor => term.has_constructor(),
        Role::Extractor => term.has_extractor(),
    }
}

/// Whether a term may be called where these are the flags of what calls it.
pub fn is_callable(caller: TermFlags, term: &Term) -> bool
    ensures { (names : List (List ℕ)) → result ≡ may_call (flags_shown caller) (flags_of (form_shown names term.now.kind)) }
{
    let called = called_flags(&term.kind);
    if caller.pure && !called.pure {
        return false;
    }
    if called.multi && !caller.multi {
        return false;
    }
    !called.partial || caller.partial
}

/// The flags of a term of a kind.
fn called_flags(kind: &TermKind) -> TermFlags
    ensures { (names : List (List ℕ)) → flags_shown result ≡ flags_of (form_shown names kind.now) }
{
    match kind {
        TermKind::EnumVariant { .. } | TermKind::Struct => TermFlags {
            pure: true,
            multi: false,
            partial: false,
            rec: false,
        },
        TermKind::Decl { flags, .. } => *flags,
    }
}

/// Whether types are exactly one, this one.
fn is_just(tys: &[TypeId], ty: TypeId) -> bool
    ensures { result ≡ takes_just (numbers_of tys.now) ty.0 }
{
    match tys {
        [first] => *first == ty,
        _ => false,
    }
}

/// Whether a converter's term takes exactly the inner type, gives the outer one and can be used so.
fn fits(term: &Term, role: Role, inner: TypeId, outer: TypeId) -> bool
    ensures { (names : List (List ℕ)) (number : ℕ)
        → fitting_term (usable_in role) inner.0 outer.0 number (Some (term_shown names term.now))
        ≡ (if result then Some (number, term_shown names term.now) else None) }
{
    if !is_just(term.arg_tys.as_slice(), inner) {
        return false;
    }
    term.ret_ty == outer && is_usable(term, role)
}

/// The converter's term that fits a pair of types and can be used so.
pub fn fitting_converter<'a>(
    context: &Context<'a>,
    role: Role,
    inner: TypeId,
    outer: TypeId,
) -> Option<NumberedTerm<'a>>
    ensures { option_map (numbered_shown context.now.tyenv.now.names) result
        ≡ fitting (known_in context.now) (usable_in role) inner.0 outer.0 }
{
    let id = context.termenv.converter(inner, outer)?;
    let term = known_term(context, id)?;
    if fits(term, role, inner, outer) {
        Some(NumberedTerm {
            id,
            term,
            is_put: true,
        })
    } else {
        None
    }
}
