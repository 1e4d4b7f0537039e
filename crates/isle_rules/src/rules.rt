//! Typed rules, with their variables, conditions, patterns and expressions.
ghost use Rattle.std.specs.Prelude.{◌≡◌, ◌<◌, None, Some, IfOk, length, string_bytes};
ghost use Rattle.isle_rules.specs.TypedTrees.{type_of_pattern, type_of_expr};
ghost use Rattle.isle_rules.specs.Shown.RuleIdentifiers.{identifier_of};

use isle_ast::files::Files;
use isle_ast::pos::Pos;
use isle_ast::{Boxed, Seq};
use isle_types::{RuleId, Sym, TermId, TypeEnv, TypeId, VarId};
use std::alloc::{AllocError, Global};

/// A typed rule. Its variables are numbered from 0 as they are bound.
#[derive(Drop)]
pub struct Rule {
    pub id: RuleId,
    pub root_term: TermId,
    pub args: Seq<Pattern>,
    pub iflets: Seq<IfLet>,
    pub rhs: Expr,
    pub vars: Seq<BoundVar>,
    pub prio: i64,
    pub pos: Pos,
    pub name: Option<Sym>,
}

impl Rule {
    /// What the rule is called: its name, or else `NAME line N` of where it stands, in a file that is known.
    pub fn identifier(
        &self,
        alloc: Global,
        tyenv: &TypeEnv,
        files: &Files,
    ) -> Result<String, AllocError>
        requires { self.now.name ≡ None → self.now.pos.file < length files.now }
        ensures { IfOk result (λ text. Some (string_bytes text) ≡ identifier_of tyenv.now files.now self.now) }
    {
        match self.name {
            Some(name) => String::from_str(alloc, tyenv.sym_name(name)),
            None => self.pos.pretty_print_line(alloc, files),
        }
    }
}

/// A variable of a rule.
#[derive(Debug, Clone, Copy, PartialEq, Eq)]
pub struct BoundVar {
    pub id: VarId,
    pub name: Sym,
    pub ty: TypeId,
}

/// A condition of a rule: `lhs` matches the value of `rhs`.
#[derive(Drop)]
pub struct IfLet {
    pub lhs: Pattern,
    pub rhs: Expr,
}

/// A typed pattern. A name that binds is a `BindPattern` of a `Wildcard`.
#[derive(PartialEq, Eq, Drop)]
pub enum Pattern {
    BindPattern(TypeId, VarId, Boxed<Pattern>),
    Var(TypeId, VarId),
    ConstBool(TypeId, bool),
    ConstInt(TypeId, i128),
    ConstPrim(TypeId, Sym),
    Term(TypeId, TermId, Seq<Pattern>),
    Wildcard(TypeId),
    And(TypeId, Seq<Pattern>),
}

impl Pattern {
    /// The type of what the pattern matches.
    pub fn ty(&self) -> TypeId
        ensures { result ≡ type_of_pattern self.now }
    {
        match self {
            Pattern::BindPattern(ty, _, _) => *ty,
            Pattern::Var(ty, _) => *ty,
            Pattern::ConstBool(ty, _) => *ty,
            Pattern::ConstInt(ty, _) => *ty,
            Pattern::ConstPrim(ty, _) => *ty,
            Pattern::Term(ty, _, _) => *ty,
            Pattern::Wildcard(ty) => *ty,
            Pattern::And(ty, _) => *ty,
        }
    }
}

/// A typed expression. The variables of a `Let` are bound in order, each after its value.
#[derive(PartialEq, Eq, Drop)]
pub enum Expr {
    Term(TypeId, TermId, Seq<Expr>),
    Var(TypeId, VarId),
    ConstBool(TypeId, bool),
    ConstInt(TypeId, i128),
    ConstPrim(TypeId, Sym),
    Let {
        ty: TypeId,
        bindings: Seq<(VarId, TypeId, Boxed<Expr>)>,
        body: Boxed<Expr>,
    },
}

impl Expr {
    /// The type of the expression's value.
    pub fn ty(&self) -> TypeId
        ensures { result ≡ type_of_expr self.now }
    {
        match self {
            Expr::Term(ty, _, _) => *ty,
            Expr::Var(ty, _) => *ty,
            Expr::ConstBool(ty, _) => *ty,
            Expr::ConstInt(ty, _) => *ty,
            Expr::ConstPrim(ty, _) => *ty,
            Expr::Let { ty, .. } => *ty,
        }
    }
}
