//! Trees of definitions, and of the types, patterns, expressions and kept items in them.
ghost use Rattle.std.specs.Prelude.{◌≡◌, IfOk};
ghost use Rattle.std.specs.Option.{option_copied};
ghost use Rattle.isle_ast.specs.Trees.PatternTree.{pattern_pos};
ghost use Rattle.isle_ast.specs.Trees.TreeCalls.{full_name, root_term, has_macro_arg, has_macro_args};
ghost use Rattle.isle_ast.specs.Trees.PatternShape.{pattern_of, patterns_of};
ghost use Rattle.isle_ast.specs.Trees.ExprTree.{expr_pos};
ghost use Rattle.isle_ast.specs.Trees.ExprShape.{expr_of, exprs_of, lets_of};
ghost use Rattle.isle_ast.specs.Trees.ItemTree.{item_pos};
ghost use Rattle.isle_ast.specs.Trees.ItemShape.{item_of, items_of};

mod chain;
mod clone;
mod eq;
mod macros;
mod terms;
pub mod wrap;

use crate::pos::Pos;
use crate::text::{Seq, Text};
use std::alloc::{AllocError, Global};
use std::marker::Model;

/// A definition of a source file. Its position is the first token after its keyword.
#[derive(Debug, Drop)]
pub enum Def {
    TypeDef(Type),
    Decl(Decl),
    Rule(Rule),
    Extractor(Extractor),
    Extern(Extern),
    Converter(Converter),
    Pragma(Pragma),
    Kept(Kept),
}

/// A pragma. None is known: the parser makes none, and none can be made outside.
#[derive(Debug, Clone, PartialEq, Eq, Drop)]
pub struct Pragma {
    _none: (),
}

/// A name and the position of its token.
#[derive(Debug, Clone, PartialEq, Eq, PartialOrd, Ord, Hash, Drop)]
pub struct Ident(pub Text, pub Pos);

/// The definition of a type.
#[derive(Debug, Clone, PartialEq, Eq, Drop)]
pub struct Type {
    pub name: Ident,
    pub is_extern: bool,
    pub is_nodebug: bool,
    pub ty: TypeValue,
    pub pos: Pos,
}

/// What a type is made of: a type of the host, variants, or the fields of a single struct.
#[derive(Debug, PartialEq, Eq, Drop)]
pub enum TypeValue {
    Primitive(Ident, Pos),
    Enum(Seq<Variant>, Pos),
    Struct(Fields, Pos),
}

/// A variant of an enum.
#[derive(Debug, PartialEq, Eq, Drop)]
pub struct Variant {
    pub name: Ident,
    pub fields: Fields,
    pub pos: Pos,
}

impl Variant {
    /// The name `enum.variant`, where the variant's name stands.
    pub fn full_name(
        alloc: Global,
        enum_name: &Ident,
        variant_name: &Ident,
    ) -> Result<Ident, AllocError>
        ensures { IfOk result (λ name. name ≡ full_name enum_name.now variant_name.now) }
    {
        let mut name = String::from_str(alloc, enum_name.0.as_str())?;
        name.push_str(".")?;
        name.push_str(variant_name.0.as_str())?;
        Ok(Ident(Text::new(name), variant_name.1))
    }
}

/// The fields of a variant or struct. No fields are always `Unit`.
#[derive(Debug, Clone, PartialEq, Eq, Drop)]
pub enum Fields {
    Unit,
    Struct(StructFields),
    Tuple(TupleFields),
}

/// Named fields, in order.
#[derive(Debug, Clone, PartialEq, Eq, Drop)]
pub struct StructFields {
    pub fields: Seq<StructField>,
}

/// A field with its name and the name of its type.
#[derive(Debug, Clone, PartialEq, Eq, Drop)]
pub struct StructField {
    pub name: Ident,
    pub ty: Ident,
    pub pos: Pos,
}

/// Fields without names, in order.
#[derive(Debug, Clone, PartialEq, Eq, Drop)]
pub struct TupleFields {
    pub fields: Seq<TupleField>,
}

/// A field with its place among the fields, from 0 on, and the name of its type.
#[derive(Debug, Clone, PartialEq, Eq, Drop)]
pub struct TupleField {
    pub index: usize,
    pub ty: Ident,
    pub pos: Pos,
}

/// The declaration of a term.
#[derive(Debug, Clone, PartialEq, Eq, Drop)]
pub struct Decl {
    pub term: Ident,
    pub arg_tys: Seq<Ident>,
    pub ret_ty: Ident,
    pub pure: bool,
    pub multi: bool,
    pub partial: bool,
    pub rec: bool,
    pub pos: Pos,
}

/// A rewriting rule. A missing priority means 0.
#[derive(Debug, Clone, PartialEq, Eq, Drop)]
pub struct Rule {
    pub pattern: Pattern,
    pub iflets: Seq<IfLet>,
    pub expr: Expr,
    pub pos: Pos,
    pub prio: Option<i64>,
    pub name: Option<Ident>,
}

/// A condition of a rule: the pattern matches the expression's value.
#[derive(Debug, Clone, PartialEq, Eq, Drop)]
pub struct IfLet {
    pub pattern: Pattern,
    pub expr: Expr,
    pub pos: Pos,
}

/// An internal extractor: the term with these arguments, as a pattern, stands for the template.
#[derive(Debug, Clone, PartialEq, Eq, Drop)]
pub struct Extractor {
    pub term: Ident,
    pub args: Seq<Ident>,
    pub template: Pattern,
    pub pos: Pos,
}

/// What the host provides: a constructor or an extractor of a term, or a constant.
#[derive(Debug, Clone, PartialEq, Eq, Drop)]
pub enum Extern {
    Constructor {
        term: Ident,
        func: Ident,
        pos: Pos,
    },
    Extractor {
        term: Ident,
        func: Ident,
        pos: Pos,
        infallible: bool,
    },
    Const {
        name: Ident,
        ty: Ident,
        pos: Pos,
    },
}

/// A term that is put in where the inner type is found and the outer type is wanted.
#[derive(Debug, Clone, PartialEq, Eq, Drop)]
pub struct Converter {
    pub term: Ident,
    pub inner_ty: Ident,
    pub outer_ty: Ident,
    pub pos: Pos,
}

/// A definition that is read and kept as it is written, without a meaning: its word and what follows.
#[derive(Debug, Clone, PartialEq, Eq, Drop)]
pub struct Kept {
    pub word: Ident,
    pub items: KeptItems,
    pub pos: Pos,
}

/// An item of a kept definition.
#[cycle(item)]
#[derive(Debug, Drop)]
pub enum KeptItem {
    Int { val: i128, pos: Pos },
    Big { val: u128, pos: Pos },
    Symbol(Ident),
    At { pos: Pos },
    List { items: KeptItems, pos: Pos },
}

/// The items of a list, seen as their trees.
#[cycle(item)]
#[derive(Debug, Drop)]
pub struct KeptItems {
    items: Vec<KeptItem>,
}

impl Model for KeptItems {
    ghost use Rattle.isle_ast.specs.Trees.ItemTree.{ItemTrees, item_heights};
    ghost use Rattle.isle_ast.specs.Trees.ItemCode.{item_trees_code};

    ghost Value = { ItemTrees };

    ghost coded = { item_trees_code };

    ghost use Rattle.isle_ast.specs.Trees.ItemShape.{items_of};

    ghost view = { λ c. items_of c.items.items };

    ghost size = { item_heights };

    ghost use Rattle.isle_ast.specs.Trees.ItemDecreases.{items_decrease};
    ghost use Rattle.std.proofs.Common.{arith};

    ghost size_decreases = { λ c h. Prim.omega (arith, items_decrease c.items.items) };
}

impl KeptItems {
    /// The items of a `Vec`, which takes no memory.
    pub fn new(items: Vec<KeptItem>) -> KeptItems
        ensures { result ≡ items_of items.items }
    {
        KeptItems { items }
    }

    /// The items.
    pub fn as_slice(&self) -> &[KeptItem]
        ensures { items_of result.now ≡ self.now }
    {
        self.items.as_slice()
    }

    /// The `Vec` inside, which takes no memory.
    pub fn into_vec(self) -> Vec<KeptItem>
        ensures { items_of result.items ≡ self }
    {
        self.items
    }

    /// Where its memory comes from.
    pub(crate) fn allocator(&self) -> Global {
        *self.items.allocator()
    }
}

impl KeptItem {
    /// Where the item's first token stands.
    pub fn pos(&self) -> Pos
        ensures { result ≡ item_pos (item_of self.now) }
    {
        match self {
            KeptItem::Int { pos, .. } => *pos,
            KeptItem::Big { pos, .. } => *pos,
            KeptItem::Symbol(name) => name.1,
            KeptItem::At { pos } => *pos,
            KeptItem::List { pos, .. } => *pos,
        }
    }
}

/// A pattern. `big` tells an integer from 2^127 on, of which `val` keeps the 128 bits. A `MacroArg` occurs only in the
/// template of an extractor.
#[cycle(pattern)]
#[derive(Debug, Drop)]
pub enum Pattern {
    Var {
        var: Ident,
        pos: Pos,
    },
    BindPattern {
        var: Ident,
        subpat: BoxedPattern,
        pos: Pos,
    },
    ConstBool {
        val: bool,
        pos: Pos,
    },
    ConstInt {
        val: i128,
        big: bool,
        pos: Pos,
    },
    ConstPrim {
        val: Ident,
        pos: Pos,
    },
    Term {
        sym: Ident,
        args: Patterns,
        pos: Pos,
    },
    Wildcard {
        pos: Pos,
    },
    And {
        subpats: Patterns,
        pos: Pos,
    },
    MacroArg {
        index: usize,
        pos: Pos,
    },
}

/// A pattern below another, seen as its tree.
#[cycle(pattern)]
#[derive(Debug)]
pub struct BoxedPattern {
    pattern: Box<Pattern>,
}

// A chain `x @ y @ ..` nests without parentheses, so it is dropped by a loop.
impl Drop for BoxedPattern {
    #[cycle(drop_pattern)]
    fn drop(mut self) {
        loop {
            let BoxedPattern { pattern } = self;
            match Box::into_inner(pattern) {
                Pattern::BindPattern { subpat, .. } => self = subpat,
                _ => return,
            }
        }
    }
}

impl Model for BoxedPattern {
    ghost use Rattle.isle_ast.specs.Trees.PatternTree.{PatternTree, pattern_height};
    ghost use Rattle.isle_ast.specs.Trees.PatternCode.{pattern_tree_code};

    ghost Value = { PatternTree };

    ghost coded = { pattern_tree_code };

    ghost use Rattle.isle_ast.specs.Trees.PatternShape.{pattern_of};

    ghost view = { λ c. pattern_of c.pattern.value };

    ghost size = { pattern_height };

    ghost use Rattle.isle_ast.specs.Trees.PatternDecreases.{pattern_decreases};
    ghost use Rattle.std.proofs.Common.{arith};

    ghost size_decreases = { λ c h. Prim.omega (arith, pattern_decreases c.pattern.value) };
}

impl BoxedPattern {
    /// A pattern in memory of its own.
    pub fn new(alloc: Global, pattern: Pattern) -> Result<BoxedPattern, AllocError>
        ensures { IfOk result (λ boxed. boxed ≡ pattern_of pattern) }
    {
        Ok(BoxedPattern {
            pattern: Box::new(alloc, pattern)?,
        })
    }

    /// The pattern.
    pub fn get(&self) -> &Pattern
        ensures { pattern_of result.now ≡ self.now }
    {
        &self.pattern
    }

    /// The pattern itself, which takes no memory.
    pub fn into_inner(self) -> Pattern
        ensures { pattern_of result ≡ self }
    {
        let BoxedPattern { pattern } = self;
        Box::into_inner(pattern)
    }

    /// Where its memory comes from.
    pub(crate) fn allocator(&self) -> Global {
        *Box::allocator(&self.pattern)
    }
}

/// The patterns below another, seen as their trees.
#[cycle(pattern)]
#[derive(Debug, Drop)]
pub struct Patterns {
    patterns: Vec<Pattern>,
}

impl Model for Patterns {
    ghost use Rattle.isle_ast.specs.Trees.PatternTree.{PatternTrees, pattern_heights};
    ghost use Rattle.isle_ast.specs.Trees.PatternCode.{pattern_trees_code};

    ghost Value = { PatternTrees };

    ghost coded = { pattern_trees_code };

    ghost use Rattle.isle_ast.specs.Trees.PatternShape.{patterns_of};

    ghost view = { λ c. patterns_of c.patterns.items };

    ghost size = { pattern_heights };

    ghost use Rattle.isle_ast.specs.Trees.PatternDecreases.{patterns_decrease};
    ghost use Rattle.std.proofs.Common.{arith};

    ghost size_decreases = { λ c h. Prim.omega (arith, patterns_decrease c.patterns.items) };
}

impl Patterns {
    /// The patterns of a `Vec`, which takes no memory.
    pub fn new(patterns: Vec<Pattern>) -> Patterns
        ensures { result ≡ patterns_of patterns.items }
    {
        Patterns { patterns }
    }

    /// The patterns.
    pub fn as_slice(&self) -> &[Pattern]
        ensures { patterns_of result.now ≡ self.now }
    {
        self.patterns.as_slice()
    }

    /// The `Vec` inside, which takes no memory.
    pub fn into_vec(self) -> Vec<Pattern>
        ensures { patterns_of result.items ≡ self }
    {
        self.patterns
    }

    /// Where its memory comes from.
    pub(crate) fn allocator(&self) -> Global {
        *self.patterns.allocator()
    }
}

impl Pattern {
    /// Where the pattern's first token stands.
    pub fn pos(&self) -> Pos
        ensures { result ≡ pattern_pos (pattern_of self.now) }
    {
        match self {
            Pattern::Var { pos, .. } => *pos,
            Pattern::BindPattern { pos, .. } => *pos,
            Pattern::ConstBool { pos, .. } => *pos,
            Pattern::ConstInt { pos, .. } => *pos,
            Pattern::ConstPrim { pos, .. } => *pos,
            Pattern::Term { pos, .. } => *pos,
            Pattern::Wildcard { pos } => *pos,
            Pattern::And { pos, .. } => *pos,
            Pattern::MacroArg { pos, .. } => *pos,
        }
    }

    /// The term's symbol, of a term.
    pub fn root_term(&self) -> Option<&Ident>
        ensures { option_copied result ≡ root_term (pattern_of self.now) }
    {
        match self {
            Pattern::Term { sym, .. } => Some(sym),
            _ => None,
        }
    }

    /// Whether a `MacroArg` occurs in the pattern.
    #[cycle(has_macro_arg)]
    #[tactic(auto, using(crate::proofs::Trees::Innermost::innermost_macro_arg, crate::proofs::Trees::Innermost::innermost_is_no_binding))]
    pub fn has_macro_arg(&self) -> bool
        ensures { result ≡ has_macro_arg (pattern_of self.now) }
    {
        match self.innermost() {
            Pattern::Term { args, .. } => has_macro_args(args.as_slice()),
            Pattern::And { subpats, .. } => has_macro_args(subpats.as_slice()),
            Pattern::MacroArg { .. } => true,
            Pattern::BindPattern { .. } => unreachable!(),
            Pattern::Var { .. }
            | Pattern::ConstBool { .. }
            | Pattern::ConstInt { .. }
            | Pattern::ConstPrim { .. }
            | Pattern::Wildcard { .. } => false,
        }
    }
}

#[cycle(has_macro_arg)]
#[tactic(auto, using(crate::proofs::Trees::PatternSizes::most_pattern_size))]
fn has_macro_args(patterns: &[Pattern]) -> bool
    ensures { result ≡ has_macro_args (patterns_of patterns.now) }
{
    for pattern in patterns {
        if pattern.has_macro_arg() {
            return true;
        }
    }
    false
}

/// An expression. `big` tells an integer from 2^127 on, of which `val` keeps the 128 bits.
#[cycle(expr)]
#[derive(Debug, Drop)]
pub enum Expr {
    Term {
        sym: Ident,
        args: Exprs,
        pos: Pos,
    },
    Var {
        name: Ident,
        pos: Pos,
    },
    ConstBool {
        val: bool,
        pos: Pos,
    },
    ConstInt {
        val: i128,
        big: bool,
        pos: Pos,
    },
    ConstPrim {
        val: Ident,
        pos: Pos,
    },
    Let {
        defs: LetDefs,
        body: BoxedExpr,
        pos: Pos,
    },
}

/// A variable of a `let`, its type and its value.
#[cycle(expr)]
#[derive(Debug, Drop)]
pub struct LetDef {
    pub var: Ident,
    pub ty: Ident,
    pub val: Expr,
    pub pos: Pos,
}

/// An expression below another, seen as its tree.
#[cycle(expr)]
#[derive(Debug, Drop)]
pub struct BoxedExpr {
    expr: Box<Expr>,
}

impl Model for BoxedExpr {
    ghost use Rattle.isle_ast.specs.Trees.ExprTree.{ExprTree, expr_height};
    ghost use Rattle.isle_ast.specs.Trees.ExprCode.{expr_tree_code};

    ghost Value = { ExprTree };

    ghost coded = { expr_tree_code };

    ghost use Rattle.isle_ast.specs.Trees.ExprShape.{expr_of};

    ghost view = { λ c. expr_of c.expr.value };

    ghost size = { expr_height };

    ghost use Rattle.isle_ast.specs.Trees.ExprDecreases.{expr_decreases};
    ghost use Rattle.std.proofs.Common.{arith};

    ghost size_decreases = { λ c h. Prim.omega (arith, expr_decreases c.expr.value) };
}

impl BoxedExpr {
    /// An expression in memory of its own.
    pub fn new(alloc: Global, expr: Expr) -> Result<BoxedExpr, AllocError>
        ensures { IfOk result (λ boxed. boxed ≡ expr_of expr) }
    {
        Ok(BoxedExpr {
            expr: Box::new(alloc, expr)?,
        })
    }

    /// The expression.
    pub fn get(&self) -> &Expr
        ensures { expr_of result.now ≡ self.now }
    {
        &self.expr
    }

    /// The expression itself, which takes no memory.
    pub fn into_inner(self) -> Expr
        ensures { expr_of result ≡ self }
    {
        Box::into_inner(self.expr)
    }

    /// Where its memory comes from.
    pub(crate) fn allocator(&self) -> Global {
        *Box::allocator(&self.expr)
    }
}

/// The expressions below another, seen as their trees.
#[cycle(expr)]
#[derive(Debug, Drop)]
pub struct Exprs {
    exprs: Vec<Expr>,
}

impl Model for Exprs {
    ghost use Rattle.isle_ast.specs.Trees.ExprTree.{ExprTrees, expr_heights};
    ghost use Rattle.isle_ast.specs.Trees.ExprCode.{expr_trees_code};

    ghost Value = { ExprTrees };

    ghost coded = { expr_trees_code };

    ghost use Rattle.isle_ast.specs.Trees.ExprShape.{exprs_of};

    ghost view = { λ c. exprs_of c.exprs.items };

    ghost size = { expr_heights };

    ghost use Rattle.isle_ast.specs.Trees.ExprDecreases.{exprs_decrease};
    ghost use Rattle.std.proofs.Common.{arith};

    ghost size_decreases = { λ c h. Prim.omega (arith, exprs_decrease c.exprs.items) };
}

impl Exprs {
    /// The expressions of a `Vec`, which takes no memory.
    pub fn new(exprs: Vec<Expr>) -> Exprs
        ensures { result ≡ exprs_of exprs.items }
    {
        Exprs { exprs }
    }

    /// The expressions.
    pub fn as_slice(&self) -> &[Expr]
        ensures { exprs_of result.now ≡ self.now }
    {
        self.exprs.as_slice()
    }

    /// The `Vec` inside, which takes no memory.
    pub fn into_vec(self) -> Vec<Expr>
        ensures { exprs_of result.items ≡ self }
    {
        self.exprs
    }

    /// Where its memory comes from.
    pub(crate) fn allocator(&self) -> Global {
        *self.exprs.allocator()
    }
}

/// The variables of a `let`, seen as their trees.
#[cycle(expr)]
#[derive(Debug, Drop)]
pub struct LetDefs {
    defs: Vec<LetDef>,
}

impl Model for LetDefs {
    ghost use Rattle.isle_ast.specs.Trees.ExprTree.{LetTrees, let_heights};
    ghost use Rattle.isle_ast.specs.Trees.ExprCode.{let_trees_code};

    ghost Value = { LetTrees };

    ghost coded = { let_trees_code };

    ghost use Rattle.isle_ast.specs.Trees.ExprShape.{lets_of};

    ghost view = { λ c. lets_of c.defs.items };

    ghost size = { let_heights };

    ghost use Rattle.isle_ast.specs.Trees.ExprDecreases.{lets_decrease};
    ghost use Rattle.std.proofs.Common.{arith};

    ghost size_decreases = { λ c h. Prim.omega (arith, lets_decrease c.defs.items) };
}

impl LetDefs {
    /// The variables of a `Vec`, which takes no memory.
    pub fn new(defs: Vec<LetDef>) -> LetDefs
        ensures { result ≡ lets_of defs.items }
    {
        LetDefs { defs }
    }

    /// The variables.
    pub fn as_slice(&self) -> &[LetDef]
        ensures { lets_of result.now ≡ self.now }
    {
        self.defs.as_slice()
    }

    /// The `Vec` inside, which takes no memory.
    pub fn into_vec(self) -> Vec<LetDef>
        ensures { lets_of result.items ≡ self }
    {
        self.defs
    }

    /// Where its memory comes from.
    pub(crate) fn allocator(&self) -> Global {
        *self.defs.allocator()
    }
}

impl Expr {
    /// Where the expression's first token stands.
    pub fn pos(&self) -> Pos
        ensures { result ≡ expr_pos (expr_of self.now) }
    {
        match self {
            Expr::Term { pos, .. } => *pos,
            Expr::Var { pos, .. } => *pos,
            Expr::ConstBool { pos, .. } => *pos,
            Expr::ConstInt { pos, .. } => *pos,
            Expr::ConstPrim { pos, .. } => *pos,
            Expr::Let { pos, .. } => *pos,
        }
    }
}
