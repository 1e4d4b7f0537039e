//! Writable definitions: those whose names, numbers, parts and nesting let them be printed and read back.
ghost use Rattle.std.specs.Prelude.{◌≡◌, ◌||◌, not};
ghost use Rattle.std.specs.List.{list_all};
ghost use Rattle.isle_ast.specs.Trees.PatternShape.{pattern_of, patterns_of};
ghost use Rattle.isle_ast.specs.Trees.ExprShape.{expr_of, exprs_of, lets_of};
ghost use Rattle.isle_ast.specs.Trees.ItemShape.{item_of, items_of};
ghost use Rattle.isle_syntax.specs.Tokens.Names.{is_word};
ghost use Rattle.isle_syntax.specs.Grammar.TreeGrammar.{is_pattern_term, is_expr_term};
ghost use Rattle.isle_layout.specs.Writable.{writable_ident, writable_int, writable_pattern, writable_patterns, writable_expr, writable_exprs};
ghost use Rattle.isle_layout.specs.Writable.{writable_lets, writable_item, writable_items, writable_struct_field, writable_tuple_fields};
ghost use Rattle.isle_layout.specs.Writable.{writable_fields, writable_variant, writable_type_value, is_free_of_flags, writable_decl};
ghost use Rattle.isle_layout.specs.Writable.{writable_extractor, writable_extern, writable_converter, writable_rule_name, writable_iflet, is_list};
ghost use Rattle.isle_layout.specs.Writable.{is_right_side, writable_rule, writable_kept, has_writable_words, writable_def};

use crate::nesting::fits;
use isle_syntax::ast::{
    Converter, Decl, Def, Expr, Extern, Extractor, Fields, Ident, IfLet, Kept, KeptItem, LetDef,
    Pattern, Rule, StructField, TupleField, TypeValue, Variant,
};
use isle_syntax::lexer::{is_const_name, is_ident, is_name, is_pname, is_symbol};
use isle_syntax::parser::{MAX_NESTING, is_kept_word};

/// Whether a definition can be printed and read back. All that `parse` gives can be. One that is made by hand may have a
/// name that is none, a part that isn't in the language, as `Pattern::MacroArg`, or more open parentheses than may be.
/// The definition that the contract cites follows the trees case by case; the clause `reads_back` of `print` gives it its
/// meaning.
pub fn writable(def: &Def) -> bool
    ensures { result ≡ writable_def def.now }
{
    // A tree that nests too deep isn't walked further.
    fits(def, MAX_NESTING) && has_writable_words(def)
}

fn has_writable_words(def: &Def) -> bool
    ensures { result ≡ has_writable_words def.now }
{
    match def {
        Def::TypeDef(ty) => writable_ident(&ty.name) && writable_type_value(&ty.ty),
        Def::Decl(decl) => writable_decl(decl),
        Def::Rule(rule) => writable_rule(rule),
        Def::Extractor(extractor) => writable_extractor(extractor),
        Def::Extern(ext) => writable_extern(ext),
        Def::Converter(converter) => writable_converter(converter),
        Def::Pragma(_) => false,
        Def::Kept(kept) => writable_kept(kept),
    }
}

fn writable_ident(name: &Ident) -> bool
    ensures { result ≡ writable_ident name.now }
{
    is_ident(name.0.as_str())
}

fn writable_idents(names: &[Ident]) -> bool
    ensures { result ≡ list_all writable_ident names.now }
{
    names.iter().all(|name| writable_ident(name))
}

/// Whether an integer from 2^127 on has its highest bit set.
fn writable_int(val: i128, big: bool) -> bool
    ensures { result ≡ writable_int val big }
{
    !big || val < 0
}

/// Whether a symbol is a term's in a pattern.
fn is_pattern_term(text: &str) -> bool
    ensures { result ≡ is_pattern_term text.now }
{
    is_ident(text) && text != "and"
}

/// Whether a symbol is a term's in an expression.
fn is_expr_term(text: &str) -> bool
    ensures { result ≡ is_expr_term text.now }
{
    is_ident(text) && text != "let"
}

/// A chain `x @ y @ ..` is walked by a loop, since it nests without parentheses.
#[cycle(writable_pattern)]
#[tactic(auto, using(isle_ast::proofs::Trees::PatternSizes::most_pattern_size))]
fn writable_pattern(pattern: &Pattern) -> bool
    ensures { result ≡ writable_pattern (pattern_of pattern.now) }
{
    let mut at = pattern;
    loop {
        match at {
            Pattern::BindPattern { var, subpat, .. } => {
                if !is_pname(var.0.as_str()) {
                    return false;
                }
                at = subpat.get();
            }
            Pattern::Var { var, .. } => return is_pname(var.0.as_str()),
            Pattern::ConstInt { val, big, .. } => return writable_int(*val, *big),
            Pattern::ConstPrim { val, .. } => return is_const_name(val.0.as_str()),
            Pattern::Term { sym, args, .. } => {
                return is_pattern_term(sym.0.as_str()) && writable_patterns(args.as_slice());
            }
            Pattern::And { subpats, .. } => return writable_patterns(subpats.as_slice()),
            Pattern::ConstBool { .. } | Pattern::Wildcard { .. } => return true,
            Pattern::MacroArg { .. } => return false,
        }
    }
}

#[cycle(writable_pattern)]
fn writable_patterns(patterns: &[Pattern]) -> bool
    ensures { result ≡ writable_patterns (patterns_of patterns.now) }
{
    for pattern in patterns {
        if !writable_pattern(pattern) {
            return false;
        }
    }
    true
}

#[cycle(writable_expr)]
#[tactic(auto, using(isle_ast::proofs::Trees::ExprSizes::most_expr_size, isle_ast::proofs::Trees::ExprSizes::most_let_size))]
fn writable_expr(expr: &Expr) -> bool
    ensures { result ≡ writable_expr (expr_of expr.now) }
{
    match expr {
        Expr::Term { sym, args, .. } => {
            is_expr_term(sym.0.as_str()) && writable_exprs(args.as_slice())
        }
        Expr::Var { name, .. } => is_name(name.0.as_str()),
        Expr::ConstBool { .. } => true,
        Expr::ConstInt { val, big, .. } => writable_int(*val, *big),
        Expr::ConstPrim { val, .. } => is_const_name(val.0.as_str()),
        Expr::Let { defs, body, .. } => writable_lets(defs.as_slice()) && writable_expr(body.get()),
    }
}

#[cycle(writable_expr)]
fn writable_exprs(exprs: &[Expr]) -> bool
    ensures { result ≡ writable_exprs (exprs_of exprs.now) }
{
    for expr in exprs {
        if !writable_expr(expr) {
            return false;
        }
    }
    true
}

#[cycle(writable_expr)]
fn writable_lets(defs: &[LetDef]) -> bool
    ensures { result ≡ writable_lets (lets_of defs.now) }
{
    for def in defs {
        if !writable_ident(&def.var) || !writable_ident(&def.ty) || !writable_expr(&def.val) {
            return false;
        }
    }
    true
}

#[cycle(writable_item)]
#[tactic(auto, using(isle_ast::proofs::Trees::ItemSizes::most_item_size))]
fn writable_item(item: &KeptItem) -> bool
    ensures { result ≡ writable_item (item_of item.now) }
{
    match item {
        KeptItem::Int { val, .. } => writable_int(*val, false),
        KeptItem::At { .. } => true,
        KeptItem::Big { val, .. } => *val >= 1 << 127,
        KeptItem::Symbol(name) => is_symbol(name.0.as_str()),
        KeptItem::List { items, .. } => writable_items(items.as_slice()),
    }
}

#[cycle(writable_item)]
fn writable_items(items: &[KeptItem]) -> bool
    ensures { result ≡ writable_items (items_of items.now) }
{
    for item in items {
        if !writable_item(item) {
            return false;
        }
    }
    true
}

fn writable_tuple_fields(fields: &[TupleField]) -> bool
    ensures { result ≡ writable_tuple_fields 0 fields.now }
{
    for (i, field) in fields.iter().enumerate() {
        if field.index != i || !writable_ident(&field.ty) {
            return false;
        }
    }
    true
}

fn writable_struct_fields(fields: &[StructField]) -> bool
    ensures { result ≡ list_all writable_struct_field fields.now }
{
    fields.iter().all(|field| writable_struct_field(field))
}

fn writable_struct_field(field: &StructField) -> bool
    ensures { result ≡ writable_struct_field field.now }
{
    writable_ident(&field.name) && writable_ident(&field.ty)
}

fn writable_fields(fields: &Fields) -> bool
    ensures { result ≡ writable_fields fields.now }
{
    match fields {
        Fields::Unit => true,
        Fields::Struct(fields) => {
            let fields = fields.fields.as_slice();
            !fields.is_empty() && writable_struct_fields(fields)
        }
        Fields::Tuple(fields) => {
            let fields = fields.fields.as_slice();
            !fields.is_empty() && writable_tuple_fields(fields)
        }
    }
}

fn writable_variant(variant: &Variant) -> bool
    ensures { result ≡ writable_variant variant.now }
{
    writable_ident(&variant.name) && writable_fields(&variant.fields)
}

fn writable_variants(variants: &[Variant]) -> bool
    ensures { result ≡ list_all writable_variant variants.now }
{
    variants.iter().all(|variant| writable_variant(variant))
}

fn writable_type_value(value: &TypeValue) -> bool
    ensures { result ≡ writable_type_value value.now }
{
    match value {
        TypeValue::Primitive(name, _) => writable_ident(name),
        TypeValue::Enum(variants, _) => writable_variants(variants.as_slice()),
        TypeValue::Struct(fields, _) => writable_fields(fields),
    }
}

/// Whether the term's name isn't read as a flag, as it is where neither that flag nor one behind it is set.
fn is_free_of_flags(decl: &Decl) -> bool
    ensures { result ≡ is_free_of_flags decl.now }
{
    let term = decl.term.0.as_str();
    let partial = decl.partial | decl.rec;
    let multi = decl.multi | partial;
    let pure = decl.pure | multi;
    is_no_flag(term, "pure", pure)
        && is_no_flag(term, "multi", multi)
        && is_no_flag(term, "partial", partial)
        && is_no_flag(term, "rec", decl.rec)
}

/// Whether a term's name is no flag, or one that is set.
fn is_no_flag(term: &str, flag: &str, is_set: bool) -> bool
    ensures { result ≡ (is_set || not (is_word flag.now term.now)) }
{
    is_set || term != flag
}

fn writable_decl(decl: &Decl) -> bool
    ensures { result ≡ writable_decl decl.now }
{
    writable_ident(&decl.term)
        && is_free_of_flags(decl)
        && writable_idents(decl.arg_tys.as_slice())
        && writable_ident(&decl.ret_ty)
}

fn writable_extractor(extractor: &Extractor) -> bool
    ensures { result ≡ writable_extractor extractor.now }
{
    writable_ident(&extractor.term)
        && writable_idents(extractor.args.as_slice())
        && writable_pattern(&extractor.template)
}

fn writable_extern(ext: &Extern) -> bool
    ensures { result ≡ writable_extern ext.now }
{
    match ext {
        Extern::Constructor { term, func, .. } => writable_ident(term) && writable_ident(func),
        Extern::Extractor {
            term,
            func,
            infallible,
            ..
        } => {
            writable_ident(term)
                && writable_ident(func)
                && (*infallible || term.0.as_str() != "infallible")
        }
        Extern::Const { name, ty, .. } => is_const_name(name.0.as_str()) && writable_ident(ty),
    }
}

fn writable_converter(converter: &Converter) -> bool
    ensures { result ≡ writable_converter converter.now }
{
    writable_ident(&converter.inner_ty)
        && writable_ident(&converter.outer_ty)
        && writable_ident(&converter.term)
}

fn writable_rule_name(name: &Option<Ident>) -> bool
    ensures { result ≡ writable_rule_name name.now }
{
    match name {
        None => true,
        Some(name) => writable_ident(name),
    }
}

fn writable_iflet(iflet: &IfLet) -> bool
    ensures { result ≡ writable_iflet iflet.now }
{
    writable_pattern(&iflet.pattern) && writable_expr(&iflet.expr)
}

fn writable_iflets(iflets: &[IfLet]) -> bool
    ensures { result ≡ list_all writable_iflet iflets.now }
{
    iflets.iter().all(|iflet| writable_iflet(iflet))
}

/// Whether a pattern is a term or an `and`.
fn is_list(pattern: &Pattern) -> bool
    ensures { result ≡ is_list (pattern_of pattern.now) }
{
    matches!(pattern, Pattern::Term { .. } | Pattern::And { .. })
}

/// Whether an expression is no term `if` or `if-let`, which would begin a clause of a rule.
fn is_right_side(expr: &Expr) -> bool
    ensures { result ≡ is_right_side (expr_of expr.now) }
{
    match expr {
        Expr::Term { sym, .. } => sym.0.as_str() != "if-let" && sym.0.as_str() != "if",
        _ => true,
    }
}

fn writable_rule(rule: &Rule) -> bool
    ensures { result ≡ writable_rule rule.now }
{
    // Contracts see a priority as a number without bounds. Reading it tells that it is one of its type.
    if let Some(priority) = &rule.prio {
        let _priority = *priority;
    }
    writable_rule_name(&rule.name)
        && is_list(&rule.pattern)
        && writable_pattern(&rule.pattern)
        && writable_iflets(rule.iflets.as_slice())
        && is_right_side(&rule.expr)
        && writable_expr(&rule.expr)
}

fn writable_kept(kept: &Kept) -> bool
    ensures { result ≡ writable_kept kept.now }
{
    is_kept_word(kept.word.0.as_str()) && writable_items(kept.items.as_slice())
}
