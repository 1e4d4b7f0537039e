//! Definitions, and the trees in them, without their positions.
ghost use Rattle.std.specs.Prelude.{◌≡◌, map, IfOk, []};
ghost use Rattle.isle_ast.specs.Trees.PatternShape.{pattern_of, patterns_of};
ghost use Rattle.isle_ast.specs.Inside.Trees.Innermost.{names_bound};
ghost use Rattle.isle_ast.specs.Trees.ExprShape.{expr_of, exprs_of, lets_of};
ghost use Rattle.isle_ast.specs.Trees.ItemShape.{item_of, items_of};
ghost use Rattle.isle_ast.specs.Trees.WithoutPos.{ident_without_pos, pattern_tree_without_pos, pattern_trees_without_pos, pattern_without_pos};
ghost use Rattle.isle_ast.specs.Trees.WithoutPos.{expr_tree_without_pos, expr_trees_without_pos, let_trees_without_pos, expr_without_pos};
ghost use Rattle.isle_ast.specs.Trees.WithoutPos.{item_tree_without_pos, item_trees_without_pos, struct_field_without_pos};
ghost use Rattle.isle_ast.specs.Trees.WithoutPos.{tuple_field_without_pos, fields_without_pos, variant_without_pos, type_value_without_pos};
ghost use Rattle.isle_ast.specs.Trees.WithoutPos.{type_without_pos, decl_without_pos, iflet_without_pos, rule_without_pos, extractor_without_pos};
ghost use Rattle.isle_ast.specs.Trees.WithoutPos.{extern_without_pos, converter_without_pos, kept_without_pos, def_without_pos};

use isle_ast::Seq;
use isle_ast::ast::wrap::wrap;
use isle_ast::ast::{
    BoxedExpr, Converter, Decl, Def, Expr, Exprs, Extern, Extractor, Fields, Ident, IfLet, Kept,
    KeptItem, KeptItems, LetDef, LetDefs, Pattern, Patterns, Rule, StructField, StructFields,
    TupleField, TupleFields, Type, TypeValue, Variant,
};
use isle_ast::pos::Pos;
use std::alloc::{AllocError, Global};

/// The name without its position.
fn ident_without_pos(name: Ident) -> Ident
    ensures { result ≡ ident_without_pos name }
{
    Ident(name.0, Pos::default())
}

#[cycle(pattern_positions)]
fn clear_pattern(alloc: Global, pattern: Pattern) -> Result<Pattern, AllocError>
    ensures { IfOk result (λ new. pattern_of new ≡ pattern_tree_without_pos (pattern_of pattern)) }
{
    let mut names = Vec::new(alloc);
    let mut at = pattern;
    while let Pattern::BindPattern { var, subpat, .. } = at {
        names.push((ident_without_pos(var), Pos::default()))?;
        at = subpat.into_inner();
    }
    wrap(alloc, names, clear_innermost(alloc, at)?)
}

#[cycle(pattern_positions)]
#[tactic(auto, using(isle_ast::proofs::Trees::WithoutPos::most_pattern_weight))]
fn clear_innermost(alloc: Global, pattern: Pattern) -> Result<Pattern, AllocError>
    requires { names_bound (pattern_of pattern) ≡ [] }
    ensures { IfOk result (λ new. pattern_of new ≡ pattern_tree_without_pos (pattern_of pattern)) }
{
    let pos = Pos::default();
    match pattern {
        Pattern::Var { var, .. } => Ok(Pattern::Var {
            var: ident_without_pos(var),
            pos,
        }),
        Pattern::BindPattern { .. } => unreachable!(),
        Pattern::ConstBool { val, .. } => Ok(Pattern::ConstBool { val, pos }),
        Pattern::ConstInt { val, big, .. } => Ok(Pattern::ConstInt { val, big, pos }),
        Pattern::ConstPrim { val, .. } => Ok(Pattern::ConstPrim {
            val: ident_without_pos(val),
            pos,
        }),
        Pattern::Term { sym, args, .. } => Ok(Pattern::Term {
            sym: ident_without_pos(sym),
            args: Patterns::new(clear_patterns(alloc, args.into_vec())?),
            pos,
        }),
        Pattern::Wildcard { .. } => Ok(Pattern::Wildcard { pos }),
        Pattern::And { subpats, .. } => Ok(Pattern::And {
            subpats: Patterns::new(clear_patterns(alloc, subpats.into_vec())?),
            pos,
        }),
        Pattern::MacroArg { index, .. } => Ok(Pattern::MacroArg { index, pos }),
    }
}

#[cycle(pattern_positions)]
#[tactic(auto, using(isle_ast::proofs::Trees::PatternSizes::most_pattern_size, isle_ast::proofs::Trees::WithoutPos::patterns_forget))]
fn clear_patterns(alloc: Global, patterns: Vec<Pattern>) -> Result<Vec<Pattern>, AllocError>
    ensures { IfOk result (λ new. patterns_of new.items ≡ pattern_trees_without_pos (patterns_of patterns.items)) }
{
    let mut all = Vec::new(alloc);
    for pattern in patterns {
        all.push(clear_pattern(alloc, pattern)?)?;
    }
    Ok(all)
}

/// The pattern without positions.
pub fn pattern_without_pos(alloc: Global, pattern: Pattern) -> Result<Pattern, AllocError>
    ensures { IfOk result (λ new. new ≡ pattern_without_pos pattern) }
{
    clear_pattern(alloc, pattern)
}

#[cycle(expr_positions)]
#[tactic(auto, using(isle_ast::proofs::Trees::WithoutPos::most_expr_weight, isle_ast::proofs::Trees::WithoutPos::most_let_weight))]
fn clear_expr(alloc: Global, expr: Expr) -> Result<Expr, AllocError>
    ensures { IfOk result (λ new. expr_of new ≡ expr_tree_without_pos (expr_of expr)) }
{
    let pos = Pos::default();
    match expr {
        Expr::Term { sym, args, .. } => Ok(Expr::Term {
            sym: ident_without_pos(sym),
            args: Exprs::new(clear_exprs(alloc, args.into_vec())?),
            pos,
        }),
        Expr::Var { name, .. } => Ok(Expr::Var {
            name: ident_without_pos(name),
            pos,
        }),
        Expr::ConstBool { val, .. } => Ok(Expr::ConstBool { val, pos }),
        Expr::ConstInt { val, big, .. } => Ok(Expr::ConstInt { val, big, pos }),
        Expr::ConstPrim { val, .. } => Ok(Expr::ConstPrim {
            val: ident_without_pos(val),
            pos,
        }),
        Expr::Let { defs, body, .. } => {
            let defs = LetDefs::new(clear_lets(alloc, defs.into_vec())?);
            let body = clear_expr(alloc, body.into_inner())?;
            Ok(Expr::Let {
                defs,
                body: BoxedExpr::new(alloc, body)?,
                pos,
            })
        }
    }
}

#[cycle(expr_positions)]
#[tactic(auto, using(isle_ast::proofs::Trees::ExprSizes::expr_sizes, isle_ast::proofs::Trees::WithoutPos::exprs_forget))]
fn clear_exprs(alloc: Global, exprs: Vec<Expr>) -> Result<Vec<Expr>, AllocError>
    ensures { IfOk result (λ new. exprs_of new.items ≡ expr_trees_without_pos (exprs_of exprs.items)) }
{
    let mut all = Vec::new(alloc);
    for expr in exprs {
        all.push(clear_expr(alloc, expr)?)?;
    }
    Ok(all)
}

#[cycle(expr_positions)]
#[tactic(auto, using(isle_ast::proofs::Trees::ExprSizes::expr_sizes, isle_ast::proofs::Trees::WithoutPos::lets_forget))]
fn clear_lets(alloc: Global, defs: Vec<LetDef>) -> Result<Vec<LetDef>, AllocError>
    ensures { IfOk result (λ new. lets_of new.items ≡ let_trees_without_pos (lets_of defs.items)) }
{
    let mut all = Vec::new(alloc);
    for def in defs {
        all.push(LetDef {
            var: ident_without_pos(def.var),
            ty: ident_without_pos(def.ty),
            val: clear_expr(alloc, def.val)?,
            pos: Pos::default(),
        })?;
    }
    Ok(all)
}

/// The expression without positions.
fn expr_without_pos(alloc: Global, expr: Expr) -> Result<Expr, AllocError>
    ensures { IfOk result (λ new. new ≡ expr_without_pos expr) }
{
    clear_expr(alloc, expr)
}

#[cycle(item_positions)]
#[tactic(auto, using(isle_ast::proofs::Trees::WithoutPos::most_item_weight))]
fn clear_item(alloc: Global, item: KeptItem) -> Result<KeptItem, AllocError>
    ensures { IfOk result (λ new. item_of new ≡ item_tree_without_pos (item_of item)) }
{
    let pos = Pos::default();
    match item {
        KeptItem::Int { val, .. } => Ok(KeptItem::Int { val, pos }),
        KeptItem::Big { val, .. } => Ok(KeptItem::Big { val, pos }),
        KeptItem::Symbol(name) => Ok(KeptItem::Symbol(ident_without_pos(name))),
        KeptItem::At { .. } => Ok(KeptItem::At { pos }),
        KeptItem::List { items, .. } => Ok(KeptItem::List {
            items: KeptItems::new(clear_items(alloc, items.into_vec())?),
            pos,
        }),
    }
}

#[cycle(item_positions)]
#[tactic(auto, using(isle_ast::proofs::Trees::ItemSizes::most_item_size, isle_ast::proofs::Trees::WithoutPos::items_forget))]
fn clear_items(alloc: Global, items: Vec<KeptItem>) -> Result<Vec<KeptItem>, AllocError>
    ensures { IfOk result (λ new. items_of new.items ≡ item_trees_without_pos (items_of items.items)) }
{
    let mut all = Vec::new(alloc);
    for item in items {
        all.push(clear_item(alloc, item)?)?;
    }
    Ok(all)
}

fn clear_idents(alloc: Global, list: Seq<Ident>) -> Result<Seq<Ident>, AllocError>
    ensures { IfOk result (λ new. new ≡ map ident_without_pos list) }
{
    let mut all = Vec::new(alloc);
    let list = list.into_vec();
    for name in list {
        all.push(ident_without_pos(name))?;
    }
    Ok(Seq::new(all))
}

/// The field without positions.
fn struct_field_without_pos(field: StructField) -> StructField
    ensures { result ≡ struct_field_without_pos field }
{
    StructField {
        name: ident_without_pos(field.name),
        ty: ident_without_pos(field.ty),
        pos: Pos::default(),
    }
}

fn clear_struct_fields(
    alloc: Global,
    list: Seq<StructField>,
) -> Result<Seq<StructField>, AllocError>
    ensures { IfOk result (λ new. new ≡ map struct_field_without_pos list) }
{
    let mut all = Vec::new(alloc);
    let list = list.into_vec();
    for field in list {
        all.push(struct_field_without_pos(field))?;
    }
    Ok(Seq::new(all))
}

/// The field without positions.
fn tuple_field_without_pos(field: TupleField) -> TupleField
    ensures { result ≡ tuple_field_without_pos field }
{
    TupleField {
        index: field.index,
        ty: ident_without_pos(field.ty),
        pos: Pos::default(),
    }
}

fn clear_tuple_fields(alloc: Global, list: Seq<TupleField>) -> Result<Seq<TupleField>, AllocError>
    ensures { IfOk result (λ new. new ≡ map tuple_field_without_pos list) }
{
    let mut all = Vec::new(alloc);
    let list = list.into_vec();
    for field in list {
        all.push(tuple_field_without_pos(field))?;
    }
    Ok(Seq::new(all))
}

/// The fields without positions.
fn fields_without_pos(alloc: Global, fields: Fields) -> Result<Fields, AllocError>
    ensures { IfOk result (λ new. new ≡ fields_without_pos fields) }
{
    match fields {
        Fields::Unit => Ok(Fields::Unit),
        Fields::Struct(fields) => Ok(Fields::Struct(StructFields {
            fields: clear_struct_fields(alloc, fields.fields)?,
        })),
        Fields::Tuple(fields) => Ok(Fields::Tuple(TupleFields {
            fields: clear_tuple_fields(alloc, fields.fields)?,
        })),
    }
}

/// The variant without positions.
fn variant_without_pos(alloc: Global, variant: Variant) -> Result<Variant, AllocError>
    ensures { IfOk result (λ new. new ≡ variant_without_pos variant) }
{
    Ok(Variant {
        name: ident_without_pos(variant.name),
        fields: fields_without_pos(alloc, variant.fields)?,
        pos: Pos::default(),
    })
}

fn clear_variants(alloc: Global, list: Seq<Variant>) -> Result<Seq<Variant>, AllocError>
    ensures { IfOk result (λ new. new ≡ map variant_without_pos list) }
{
    let mut all = Vec::new(alloc);
    let list = list.into_vec();
    for variant in list {
        all.push(variant_without_pos(alloc, variant)?)?;
    }
    Ok(Seq::new(all))
}

/// The part without positions.
fn type_value_without_pos(alloc: Global, value: TypeValue) -> Result<TypeValue, AllocError>
    ensures { IfOk result (λ new. new ≡ type_value_without_pos value) }
{
    let pos = Pos::default();
    match value {
        TypeValue::Primitive(name, _) => Ok(TypeValue::Primitive(ident_without_pos(name), pos)),
        TypeValue::Enum(variants, _) => Ok(TypeValue::Enum(clear_variants(alloc, variants)?, pos)),
        TypeValue::Struct(fields, _) => Ok(TypeValue::Struct(
            fields_without_pos(alloc, fields)?,
            pos,
        )),
    }
}

/// The definition without positions.
fn type_without_pos(alloc: Global, ty: Type) -> Result<Type, AllocError>
    ensures { IfOk result (λ new. new ≡ type_without_pos ty) }
{
    Ok(Type {
        name: ident_without_pos(ty.name),
        is_extern: ty.is_extern,
        is_nodebug: ty.is_nodebug,
        ty: type_value_without_pos(alloc, ty.ty)?,
        pos: Pos::default(),
    })
}

/// The declaration without positions.
fn decl_without_pos(alloc: Global, decl: Decl) -> Result<Decl, AllocError>
    ensures { IfOk result (λ new. new ≡ decl_without_pos decl) }
{
    Ok(Decl {
        term: ident_without_pos(decl.term),
        arg_tys: clear_idents(alloc, decl.arg_tys)?,
        ret_ty: ident_without_pos(decl.ret_ty),
        pure: decl.pure,
        multi: decl.multi,
        partial: decl.partial,
        rec: decl.rec,
        pos: Pos::default(),
    })
}

/// The condition without positions.
fn iflet_without_pos(alloc: Global, iflet: IfLet) -> Result<IfLet, AllocError>
    ensures { IfOk result (λ new. new ≡ iflet_without_pos iflet) }
{
    Ok(IfLet {
        pattern: pattern_without_pos(alloc, iflet.pattern)?,
        expr: expr_without_pos(alloc, iflet.expr)?,
        pos: Pos::default(),
    })
}

fn clear_iflets(alloc: Global, list: Seq<IfLet>) -> Result<Seq<IfLet>, AllocError>
    ensures { IfOk result (λ new. new ≡ map iflet_without_pos list) }
{
    let mut all = Vec::new(alloc);
    let list = list.into_vec();
    for iflet in list {
        all.push(iflet_without_pos(alloc, iflet)?)?;
    }
    Ok(Seq::new(all))
}

/// The rule without positions.
fn rule_without_pos(alloc: Global, rule: Rule) -> Result<Rule, AllocError>
    ensures { IfOk result (λ new. new ≡ rule_without_pos rule) }
{
    Ok(Rule {
        pattern: pattern_without_pos(alloc, rule.pattern)?,
        iflets: clear_iflets(alloc, rule.iflets)?,
        expr: expr_without_pos(alloc, rule.expr)?,
        pos: Pos::default(),
        prio: rule.prio,
        name: rule.name.map(ident_without_pos),
    })
}

/// The extractor without positions.
fn extractor_without_pos(alloc: Global, extractor: Extractor) -> Result<Extractor, AllocError>
    ensures { IfOk result (λ new. new ≡ extractor_without_pos extractor) }
{
    Ok(Extractor {
        term: ident_without_pos(extractor.term),
        args: clear_idents(alloc, extractor.args)?,
        template: pattern_without_pos(alloc, extractor.template)?,
        pos: Pos::default(),
    })
}

/// The part without positions.
fn extern_without_pos(part: Extern) -> Extern
    ensures { result ≡ extern_without_pos part }
{
    let pos = Pos::default();
    match part {
        Extern::Constructor { term, func, .. } => Extern::Constructor {
            term: ident_without_pos(term),
            func: ident_without_pos(func),
            pos,
        },
        Extern::Extractor {
            term,
            func,
            infallible,
            ..
        } => Extern::Extractor {
            term: ident_without_pos(term),
            func: ident_without_pos(func),
            pos,
            infallible,
        },
        Extern::Const { name, ty, .. } => Extern::Const {
            name: ident_without_pos(name),
            ty: ident_without_pos(ty),
            pos,
        },
    }
}

/// The converter without positions.
fn converter_without_pos(converter: Converter) -> Converter
    ensures { result ≡ converter_without_pos converter }
{
    Converter {
        term: ident_without_pos(converter.term),
        inner_ty: ident_without_pos(converter.inner_ty),
        outer_ty: ident_without_pos(converter.outer_ty),
        pos: Pos::default(),
    }
}

/// The definition without positions.
fn kept_without_pos(alloc: Global, kept: Kept) -> Result<Kept, AllocError>
    ensures { IfOk result (λ new. new ≡ kept_without_pos kept) }
{
    Ok(Kept {
        word: ident_without_pos(kept.word),
        items: KeptItems::new(clear_items(alloc, kept.items.into_vec())?),
        pos: Pos::default(),
    })
}

/// The definition without positions.
pub fn def_without_pos(alloc: Global, def: Def) -> Result<Def, AllocError>
    ensures { IfOk result (λ new. new ≡ def_without_pos def) }
{
    match def {
        Def::TypeDef(ty) => Ok(Def::TypeDef(type_without_pos(alloc, ty)?)),
        Def::Decl(decl) => Ok(Def::Decl(decl_without_pos(alloc, decl)?)),
        Def::Rule(rule) => Ok(Def::Rule(rule_without_pos(alloc, rule)?)),
        Def::Extractor(extractor) => Ok(Def::Extractor(extractor_without_pos(alloc, extractor)?)),
        Def::Extern(external) => Ok(Def::Extern(extern_without_pos(external))),
        Def::Converter(converter) => Ok(Def::Converter(converter_without_pos(converter))),
        Def::Pragma(pragma) => Ok(Def::Pragma(pragma)),
        Def::Kept(kept) => Ok(Def::Kept(kept_without_pos(alloc, kept)?)),
    }
}
