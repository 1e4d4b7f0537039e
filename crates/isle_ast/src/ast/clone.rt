//! Copies of definitions, and of the types, patterns, expressions and kept items in them.
ghost use Rattle.std.specs.Prelude.{◌≡◌, [], IfOk};
ghost use Rattle.isle_ast.specs.Trees.PatternShape.{pattern_of, patterns_of};
ghost use Rattle.isle_ast.specs.Trees.ExprShape.{expr_of, exprs_of, lets_of};
ghost use Rattle.isle_ast.specs.Trees.ItemShape.{item_of, items_of};
ghost use Rattle.isle_ast.specs.Inside.Trees.Innermost.{names_bound};

use crate::ast::wrap::wrap;
use crate::ast::{
    BoxedExpr, BoxedPattern, Def, Expr, Exprs, KeptItem, KeptItems, LetDef, LetDefs, Pattern,
    Patterns, TypeValue, Variant,
};
use std::alloc::{AllocError, Global};

impl Clone for Def {
    ghost use Rattle.std.specs.Prelude.{◌≡◌};

    ghost is_clone = { λ x y. y ≡ x };

    fn clone(&self) -> Result<Def, AllocError> {
        match self {
            Def::TypeDef(ty) => Ok(Def::TypeDef(ty.clone()?)),
            Def::Decl(decl) => Ok(Def::Decl(decl.clone()?)),
            Def::Rule(rule) => Ok(Def::Rule(rule.clone()?)),
            Def::Extractor(extractor) => Ok(Def::Extractor(extractor.clone()?)),
            Def::Extern(external) => Ok(Def::Extern(external.clone()?)),
            Def::Converter(converter) => Ok(Def::Converter(converter.clone()?)),
            Def::Pragma(pragma) => Ok(Def::Pragma(pragma.clone()?)),
            Def::Kept(kept) => Ok(Def::Kept(kept.clone()?)),
        }
    }
}

impl Clone for TypeValue {
    ghost use Rattle.std.specs.Prelude.{◌≡◌};

    ghost is_clone = { λ x y. y ≡ x };

    fn clone(&self) -> Result<TypeValue, AllocError> {
        match self {
            TypeValue::Primitive(name, pos) => Ok(TypeValue::Primitive(name.clone()?, *pos)),
            TypeValue::Enum(variants, pos) => Ok(TypeValue::Enum(variants.clone()?, *pos)),
            TypeValue::Struct(fields, pos) => Ok(TypeValue::Struct(fields.clone()?, *pos)),
        }
    }
}

impl Clone for Variant {
    ghost use Rattle.std.specs.Prelude.{◌≡◌};

    ghost is_clone = { λ x y. y ≡ x };

    fn clone(&self) -> Result<Variant, AllocError> {
        Ok(Variant {
            name: self.name.clone()?,
            fields: self.fields.clone()?,
            pos: self.pos,
        })
    }
}

impl Clone for Pattern {
    ghost use Rattle.std.specs.Prelude.{◌≡◌};

    ghost is_clone = { λ x y. y ≡ x };

    #[cycle(clone_pattern)]
    #[tactic(auto, using(crate::proofs::Trees::Innermost::chain_ends, crate::proofs::Trees::Innermost::cloned_chain))]
    fn clone(&self) -> Result<Pattern, AllocError> {
        match self {
            Pattern::BindPattern { subpat, .. } => {
                let alloc = subpat.allocator();
                let names = self.names_bound(alloc)?;
                wrap(alloc, names, clone_innermost(self.innermost())?)
            }
            _ => clone_innermost(self),
        }
    }
}

/// A copy of a pattern that is no binding.
#[cycle(clone_pattern)]
#[tactic(auto, using(crate::proofs::Trees::PatternSizes::most_pattern_size))]
fn clone_innermost(pattern: &Pattern) -> Result<Pattern, AllocError>
    requires { names_bound (pattern_of pattern.now) ≡ [] }
    ensures { IfOk result (λ new. new ≡ pattern.now) }
{
    match pattern {
        Pattern::Var { var, pos } => Ok(Pattern::Var {
            var: var.clone()?,
            pos: *pos,
        }),
        Pattern::BindPattern { .. } => unreachable!(),
        Pattern::ConstBool { val, pos } => Ok(Pattern::ConstBool {
            val: *val,
            pos: *pos,
        }),
        Pattern::ConstInt { val, big, pos } => Ok(Pattern::ConstInt {
            val: *val,
            big: *big,
            pos: *pos,
        }),
        Pattern::ConstPrim { val, pos } => Ok(Pattern::ConstPrim {
            val: val.clone()?,
            pos: *pos,
        }),
        Pattern::Term { sym, args, pos } => Ok(Pattern::Term {
            sym: sym.clone()?,
            args: Patterns::new(clone_patterns(args.allocator(), args.as_slice())?),
            pos: *pos,
        }),
        Pattern::Wildcard { pos } => Ok(Pattern::Wildcard { pos: *pos }),
        Pattern::And { subpats, pos } => Ok(Pattern::And {
            subpats: Patterns::new(clone_patterns(subpats.allocator(), subpats.as_slice())?),
            pos: *pos,
        }),
        Pattern::MacroArg { index, pos } => Ok(Pattern::MacroArg {
            index: *index,
            pos: *pos,
        }),
    }
}

#[cycle(clone_pattern)]
#[tactic(auto, using(crate::proofs::Trees::PatternSizes::most_pattern_size))]
fn clone_patterns(alloc: Global, patterns: &[Pattern]) -> Result<Vec<Pattern>, AllocError>
    ensures { IfOk result (λ new. new.items ≡ patterns.now) }
{
    let mut all = Vec::new(alloc);
    for pattern in patterns {
        all.push(pattern.clone()?)?;
    }
    Ok(all)
}

impl Clone for BoxedPattern {
    ghost use Rattle.std.specs.Prelude.{◌≡◌};

    ghost is_clone = { λ x y. y ≡ x };

    fn clone(&self) -> Result<BoxedPattern, AllocError> {
        BoxedPattern::new(self.allocator(), self.get().clone()?)
    }
}

impl Clone for Patterns {
    ghost use Rattle.std.specs.Prelude.{◌≡◌};

    ghost is_clone = { λ x y. y ≡ x };

    fn clone(&self) -> Result<Patterns, AllocError> {
        Ok(Patterns::new(clone_patterns(self.allocator(), self.as_slice())?))
    }
}

impl Clone for Expr {
    ghost use Rattle.std.specs.Prelude.{◌≡◌};

    ghost is_clone = { λ x y. y ≡ x };

    #[cycle(clone_expr)]
    #[tactic(auto, using(crate::proofs::Trees::ExprSizes::most_expr_size, crate::proofs::Trees::ExprSizes::most_let_size))]
    fn clone(&self) -> Result<Expr, AllocError> {
        match self {
            Expr::Term { sym, args, pos } => Ok(Expr::Term {
                sym: sym.clone()?,
                args: Exprs::new(clone_exprs(args.allocator(), args.as_slice())?),
                pos: *pos,
            }),
            Expr::Var { name, pos } => Ok(Expr::Var {
                name: name.clone()?,
                pos: *pos,
            }),
            Expr::ConstBool { val, pos } => Ok(Expr::ConstBool {
                val: *val,
                pos: *pos,
            }),
            Expr::ConstInt { val, big, pos } => Ok(Expr::ConstInt {
                val: *val,
                big: *big,
                pos: *pos,
            }),
            Expr::ConstPrim { val, pos } => Ok(Expr::ConstPrim {
                val: val.clone()?,
                pos: *pos,
            }),
            Expr::Let { defs, body, pos } => Ok(Expr::Let {
                defs: LetDefs::new(clone_defs(defs.allocator(), defs.as_slice())?),
                body: BoxedExpr::new(body.allocator(), body.get().clone()?)?,
                pos: *pos,
            }),
        }
    }
}

#[cycle(clone_expr)]
#[tactic(auto, using(crate::proofs::Trees::ExprSizes::most_expr_size, crate::proofs::Trees::ExprSizes::most_let_size))]
fn clone_exprs(alloc: Global, exprs: &[Expr]) -> Result<Vec<Expr>, AllocError>
    ensures { IfOk result (λ new. new.items ≡ exprs.now) }
{
    let mut all = Vec::new(alloc);
    for expr in exprs {
        all.push(expr.clone()?)?;
    }
    Ok(all)
}

#[cycle(clone_expr)]
#[tactic(auto, using(crate::proofs::Trees::ExprSizes::most_expr_size, crate::proofs::Trees::ExprSizes::most_let_size))]
fn clone_defs(alloc: Global, defs: &[LetDef]) -> Result<Vec<LetDef>, AllocError>
    ensures { IfOk result (λ new. new.items ≡ defs.now) }
{
    let mut all = Vec::new(alloc);
    for def in defs {
        all.push(LetDef {
            var: def.var.clone()?,
            ty: def.ty.clone()?,
            val: def.val.clone()?,
            pos: def.pos,
        })?;
    }
    Ok(all)
}

impl Clone for LetDef {
    ghost use Rattle.std.specs.Prelude.{◌≡◌};

    ghost is_clone = { λ x y. y ≡ x };

    fn clone(&self) -> Result<LetDef, AllocError> {
        Ok(LetDef {
            var: self.var.clone()?,
            ty: self.ty.clone()?,
            val: self.val.clone()?,
            pos: self.pos,
        })
    }
}

impl Clone for BoxedExpr {
    ghost use Rattle.std.specs.Prelude.{◌≡◌};

    ghost is_clone = { λ x y. y ≡ x };

    fn clone(&self) -> Result<BoxedExpr, AllocError> {
        BoxedExpr::new(self.allocator(), self.get().clone()?)
    }
}

impl Clone for Exprs {
    ghost use Rattle.std.specs.Prelude.{◌≡◌};

    ghost is_clone = { λ x y. y ≡ x };

    fn clone(&self) -> Result<Exprs, AllocError> {
        Ok(Exprs::new(clone_exprs(self.allocator(), self.as_slice())?))
    }
}

impl Clone for LetDefs {
    ghost use Rattle.std.specs.Prelude.{◌≡◌};

    ghost is_clone = { λ x y. y ≡ x };

    fn clone(&self) -> Result<LetDefs, AllocError> {
        Ok(LetDefs::new(clone_defs(self.allocator(), self.as_slice())?))
    }
}

impl Clone for KeptItem {
    ghost use Rattle.std.specs.Prelude.{◌≡◌};

    ghost is_clone = { λ x y. y ≡ x };

    #[cycle(clone_item)]
    #[tactic(auto, using(crate::proofs::Trees::ItemSizes::most_item_size))]
    fn clone(&self) -> Result<KeptItem, AllocError> {
        match self {
            KeptItem::Int { val, pos } => Ok(KeptItem::Int {
                val: *val,
                pos: *pos,
            }),
            KeptItem::Big { val, pos } => Ok(KeptItem::Big {
                val: *val,
                pos: *pos,
            }),
            KeptItem::Symbol(name) => Ok(KeptItem::Symbol(name.clone()?)),
            KeptItem::At { pos } => Ok(KeptItem::At { pos: *pos }),
            KeptItem::List { items, pos } => Ok(KeptItem::List {
                items: KeptItems::new(clone_items(items.allocator(), items.as_slice())?),
                pos: *pos,
            }),
        }
    }
}

#[cycle(clone_item)]
#[tactic(auto, using(crate::proofs::Trees::ItemSizes::most_item_size))]
fn clone_items(alloc: Global, items: &[KeptItem]) -> Result<Vec<KeptItem>, AllocError>
    ensures { IfOk result (λ new. new.items ≡ items.now) }
{
    let mut all = Vec::new(alloc);
    for item in items {
        all.push(item.clone()?)?;
    }
    Ok(all)
}

impl Clone for KeptItems {
    ghost use Rattle.std.specs.Prelude.{◌≡◌};

    ghost is_clone = { λ x y. y ≡ x };

    fn clone(&self) -> Result<KeptItems, AllocError> {
        Ok(KeptItems::new(clone_items(self.allocator(), self.as_slice())?))
    }
}
