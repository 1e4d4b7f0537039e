//! The texts of messages.

use crate::translate::Context;
use crate::translate::bindings::BoundName;
use crate::translate::names::{NumberedTerm, Role};
use isle_ast::Text;
use isle_ast::ast::{Expr, Ident, Pattern};
use isle_ast::pos::Pos;
use isle_rules::{Term, TermEnv, TermFlags, TermKind};
use isle_types::{BuiltinType, Type, TypeEnv, TypeId};
use std::alloc::{AllocError, Global};

/// A literal of an integer; where `big` is set the number from 2^127 on of which `val` keeps the 128 bits.
#[derive(Clone, Copy)]
pub struct Integer {
    pub val: i128,
    pub big: bool,
}

impl Integer {
    /// The number.
    fn text(self, alloc: Global) -> Result<String, AllocError> {
        if self.big {
            self.val.cast_unsigned().to_string(alloc)
        } else {
            self.val.to_string(alloc)
        }
    }
}

/// `NAME is of type TYPE, and TYPE is expected`.
fn mistyped(
    context: &Context<'_>,
    name: &str,
    ty: TypeId,
    want: Option<TypeId>,
) -> Result<String, AllocError> {
    let has = context.tyenv.type_name(ty);
    match want {
        Some(want) => {
            let wanted = context.tyenv.type_name(want);
            format!(in context.alloc; "{name} is of type {has}, and {wanted} is expected")
        }
        None => format!(in context.alloc; "{name} is of type {has}"),
    }
}

/// `1 is an integer, and nothing tells its type`.
pub fn untyped_integer(context: &Context<'_>, integer: Integer) -> Result<String, AllocError> {
    let number = integer.text(context.alloc)?;
    format!(in context.alloc; "{number} is an integer, and nothing tells its type")
}

/// `256 is not a u8 (0 to 255)`.
pub fn ill_integer(
    context: &Context<'_>,
    integer: Integer,
    ty: TypeId,
) -> Result<String, AllocError> {
    let number = integer.text(context.alloc)?;
    let name = context.tyenv.type_name(ty);
    match context.tyenv.get_type(ty) {
        Some(Type::Builtin(BuiltinType::Int(int))) => {
            let article = if int.is_signed() { "an" } else { "a" };
            let bounds = int.bounds();
            format!(in context.alloc; "{number} is not {article} {name} ({bounds})")
        }
        _ => format!(in context.alloc; "{number} is an integer, and {name} is expected"),
    }
}

/// `true is of type bool, and u8 is expected`.
pub fn ill_boolean(
    context: &Context<'_>,
    val: bool,
    want: Option<TypeId>,
) -> Result<String, AllocError> {
    let word = if val { "true" } else { "false" };
    mistyped(context, word, TypeId::BOOL, want)
}

/// `$C is not declared`.
pub fn unknown_constant(context: &Context<'_>, name: &Ident) -> Result<String, AllocError> {
    let name = name.0.as_str();
    format!(in context.alloc; "${name} is not declared")
}

/// `$C is of type u8, and u16 is expected`.
pub fn ill_constant(
    context: &Context<'_>,
    name: &Ident,
    ty: TypeId,
    want: Option<TypeId>,
) -> Result<String, AllocError> {
    let name = name.0.as_str();
    let constant = format!(in context.alloc; "${name}")?;
    mistyped(context, constant.as_str(), ty, want)
}

/// `f is not declared`.
pub fn undeclared(context: &Context<'_>, name: &Ident) -> Result<String, AllocError> {
    let name = name.0.as_str();
    format!(in context.alloc; "{name} is not declared")
}

/// `f takes 1 argument, 2 are given`.
pub fn ill_count(context: &Context<'_>, term: &Term, given: usize) -> Result<String, AllocError> {
    let name = context.tyenv.sym_name(term.name);
    let takes = term.arg_tys.as_slice().len();
    let arguments = if takes == 1 { "argument" } else { "arguments" };
    let are = if given == 1 { "is" } else { "are" };
    format!(in context.alloc; "{name} takes {takes} {arguments}, {given} {are} given")
}

/// What a term lacks for a use.
fn lack(role: Role) -> &'static str {
    match role {
        Role::Constructor => "has neither rules nor an external constructor",
        Role::Extractor => "has no extractor",
    }
}

/// `f has no extractor`.
pub fn unusable(context: &Context<'_>, term: &Term, role: Role) -> Result<String, AllocError> {
    let name = context.tyenv.sym_name(term.name);
    let lack = lack(role);
    format!(in context.alloc; "{name} {lack}")
}

/// The flags of a declared term, and of another term those that it is called with.
fn flags_of(term: &Term) -> TermFlags {
    match &term.kind {
        TermKind::Decl { flags, .. } => *flags,
        TermKind::EnumVariant { .. } | TermKind::Struct => TermFlags {
            pure: true,
            multi: false,
            partial: false,
            rec: false,
        },
    }
}

/// The term at the root of the rule.
fn root_of<'a>(context: &Context<'a>) -> Option<&'a Term> {
    let Pattern::Term { sym, .. } = context.root else {
        return None;
    };
    let id = context.termenv.get_term_by_name(context.tyenv, sym)?;
    context.termenv.get_term(id)
}

/// `put, the converter from Value to Reg`.
fn converter(
    context: &Context<'_>,
    name: &str,
    inner: TypeId,
    outer: TypeId,
) -> Result<String, AllocError> {
    let inner = context.tyenv.type_name(inner);
    let outer = context.tyenv.type_name(outer);
    format!(in context.alloc; "{name}, the converter from {inner} to {outer}")
}

/// How a called term is spoken of: where no text calls it, as a converter.
fn called_name(context: &Context<'_>, called: &NumberedTerm<'_>) -> Result<String, AllocError> {
    let name = context.tyenv.sym_name(called.term.name);
    match called.term.arg_tys.as_slice() {
        [inner] if called.is_put => {
            let named = converter(context, name, *inner, called.term.ret_ty)?;
            format!(in context.alloc; "{named},")
        }
        _ => String::from_str(context.alloc, name),
    }
}

/// Where an impure term is called from.
fn from_where(context: &Context<'_>) -> Result<String, AllocError> {
    match root_of(context) {
        Some(root) if flags_of(root).pure => {
            let name = context.tyenv.sym_name(root.name);
            format!(in context.alloc; "the pure term {name}")
        }
        _ => String::from_str(context.alloc, "a clause"),
    }
}

/// `g is not pure, and is called from a clause`, `g is partial, f isn't` or `g is multi, f isn't`.
pub fn not_callable(
    context: &Context<'_>,
    caller: TermFlags,
    called: &NumberedTerm<'_>,
) -> Result<String, AllocError> {
    let name = called_name(context, called)?;
    let flags = flags_of(called.term);
    if caller.pure && !flags.pure {
        return impure(context, name.as_str(), called.is_put);
    }
    let flag = if flags.multi && !caller.multi {
        "multi"
    } else {
        "partial"
    };
    match root_of(context) {
        Some(root) => {
            let root = context.tyenv.sym_name(root.name);
            format!(in context.alloc; "{name} is {flag}, {root} isn't")
        }
        None => format!(in context.alloc; "{name} is {flag}"),
    }
}

/// `g is not pure, and is called from a clause`, or of a converter that it isn't pure.
fn impure(context: &Context<'_>, name: &str, is_put: bool) -> Result<String, AllocError> {
    if is_put {
        return format!(in context.alloc; "{name} is not pure");
    }
    let from = from_where(context)?;
    format!(in context.alloc; "{name} is not pure, and is called from {from}")
}

/// `T.A is a variant: write (T.A)`, where a name is that of a variant's or a struct's term.
fn written_so(context: &Context<'_>, name: &Ident) -> Result<Option<String>, AllocError> {
    let termenv: &TermEnv = context.termenv;
    let Some(id) = termenv.get_term_by_name(context.tyenv, name) else {
        return Ok(None);
    };
    let Some(term) = termenv.get_term(id) else {
        return Ok(None);
    };
    let name = name.0.as_str();
    let below = if term.arg_tys.as_slice().is_empty() {
        ""
    } else {
        " .."
    };
    let what = match &term.kind {
        TermKind::EnumVariant { .. } => "variant",
        TermKind::Struct => "struct",
        TermKind::Decl { .. } => return Ok(None),
    };
    Ok(Some(format!(in context.alloc; "{name} is a {what}: write ({name}{below})")?))
}

/// `x is not bound`, or how a variant is written.
pub fn unbound(context: &Context<'_>, name: &Ident) -> Result<String, AllocError> {
    if let Some(written) = written_so(context, name)? {
        return Ok(written);
    }
    let name = name.0.as_str();
    format!(in context.alloc; "{name} is not bound")
}

/// `x is of type u8, and u16 is expected`, or how a variant is written.
pub fn ill_name(
    context: &Context<'_>,
    name: &Ident,
    bound: BoundName,
    ty: TypeId,
) -> Result<String, AllocError> {
    if let Some(written) = written_so(context, name)? {
        return Ok(written);
    }
    mistyped(context, name.0.as_str(), bound.ty, Some(ty))
}

/// ` at LINE:COLUMN` of where a name is bound first, with its file where that is another one than the message's.
fn first_place(context: &Context<'_>, pos: Pos, first: Option<Pos>) -> Result<String, AllocError> {
    match first {
        Some(first) if first.file == pos.file => context.tyenv.at_line(first),
        Some(first) => context.tyenv.at_place(first),
        None => Ok(String::new(context.alloc)),
    }
}

/// `x is bound already at LINE:COLUMN`, or how a variant is written.
pub fn bound_already(
    context: &Context<'_>,
    pos: Pos,
    name: &Ident,
    first: Option<Pos>,
) -> Result<String, AllocError> {
    if let Some(written) = written_so(context, name)? {
        return Ok(written);
    }
    let name = name.0.as_str();
    let place = first_place(context, pos, first)?;
    format!(in context.alloc; "{name} is bound already{place}")
}

/// The line on a converter of two types that there is and that doesn't fit; nothing where there is none.
fn ill_converter(
    context: &Context<'_>,
    inner: TypeId,
    outer: TypeId,
    role: Role,
) -> Result<String, AllocError> {
    let Some(id) = context.termenv.converter(inner, outer) else {
        return Ok(String::new(context.alloc));
    };
    let Some(term) = context.termenv.get_term(id) else {
        return Ok(String::new(context.alloc));
    };
    let named = converter(context, context.tyenv.sym_name(term.name), inner, outer)?;
    let why = ill_fit(term, inner, outer, role);
    format!(in context.alloc; "\n{named}, {why}")
}

/// Why a converter of two types doesn't fit.
fn ill_fit(term: &Term, inner: TypeId, outer: TypeId, role: Role) -> &'static str {
    let takes = match term.arg_tys.as_slice() {
        [only] => *only == inner,
        _ => false,
    };
    if takes && term.ret_ty == outer {
        lack(role)
    } else {
        "is declared with other types"
    }
}

/// The name that an expression begins with.
fn expr_name(expr: &Expr) -> &str {
    match expr {
        Expr::Term { sym, .. } => sym.0.as_str(),
        Expr::Var { name, .. } => name.0.as_str(),
        _ => "this",
    }
}

/// `x is of type u8, and u16 is expected`, and below it a converter that doesn't fit.
pub fn ill_expr(
    context: &Context<'_>,
    expr: &Expr,
    ty: TypeId,
    want: Option<TypeId>,
) -> Result<String, AllocError> {
    let mut text = mistyped(context, expr_name(expr), ty, want)?;
    if let Some(want) = want {
        let below = ill_converter(context, ty, want, Role::Constructor)?;
        text.push_str(below.as_str())?;
    }
    Ok(text)
}

/// `f is of type u8, and u16 is expected`, and below it a converter that doesn't fit.
pub fn ill_pattern(
    context: &Context<'_>,
    pattern: &Pattern,
    ty: TypeId,
    want: TypeId,
) -> Result<String, AllocError> {
    let name = match pattern {
        Pattern::Term { sym, .. } => sym.0.as_str(),
        _ => "this",
    };
    let mut text = mistyped(context, name, ty, Some(want))?;
    let below = ill_converter(context, ty, want, Role::Extractor)?;
    text.push_str(below.as_str())?;
    Ok(text)
}

/// `the extractor of f uses more arguments than f takes`.
pub fn lacking(context: &Context<'_>, term: &Term) -> Result<String, AllocError> {
    let name = context.tyenv.sym_name(term.name);
    format!(in context.alloc; "the extractor of {name} uses more arguments than {name} takes")
}

/// `f is multi, and its rules have no priority`.
pub fn ill_priority(context: &Context<'_>, term: &Term) -> Result<String, AllocError> {
    let name = context.tyenv.sym_name(term.name);
    format!(in context.alloc; "{name} is multi, and its rules have no priority")
}

/// `f is not declared`.
pub fn ill_root(context: &Context<'_>, root: &Pattern) -> Result<String, AllocError> {
    match root {
        Pattern::Term { sym, .. } => undeclared(context, sym),
        _ => String::from_str(context.alloc, "the root of a rule is a term"),
    }
}

/// A message, and below it `met in a rule of f at FILE:LINE:COLUMN`.
pub fn met(context: &Context<'_>, msg: Text) -> Result<Text, AllocError> {
    let place = context.tyenv.at_place(context.rule)?;
    let mut text = msg.into_string();
    text.push_str("\nmet in a rule")?;
    if let Pattern::Term { sym, .. } = context.root {
        text.push_str(" of ")?;
        text.push_str(sym.0.as_str())?;
    }
    text.push_str(place.as_str())?;
    Ok(Text::new(text))
}
