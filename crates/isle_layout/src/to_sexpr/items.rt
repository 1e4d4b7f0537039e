//! S-expressions of kept definitions and of their items.
ghost use Rattle.std.specs.Prelude.{◌≡◌, ◌++◌, false, IfOk};
ghost use Rattle.isle_ast.specs.Trees.ItemShape.{item_of, items_of};
ghost use Rattle.isle_layout.specs.SExprShape.{sexpr_of};
ghost use Rattle.isle_layout.specs.Spellings.{item_sexpr, item_sexprs};
ghost use Rattle.isle_layout.specs.DefSpellings.{kept_sexpr};

use crate::sexpr::SExpr;
use crate::to_sexpr::list::{ListBuilder, atom, name};
use crate::to_sexpr::numbers::{natural, signed};
use crate::to_sexpr::{HasMacroArg, ToSExpr};
use isle_syntax::Refusal;
use isle_syntax::ast::{Kept, KeptItem};
use std::alloc::{AllocError, Global};

/// A kept definition.
impl ToSExpr for Kept {
    ghost sexpr = { kept_sexpr };

    ghost macro_arg = { λ _. false };

    fn to_sexpr(&self, alloc: Global) -> Result<SExpr, Refusal<HasMacroArg>> {
        let list = ListBuilder::new(alloc).name(&self.word)?;
        Ok(add_items(alloc, list, self.items.as_slice())?.build())
    }
}

/// An item of a kept definition.
#[cycle(spell_item)]
#[tactic(auto, using(isle_ast::proofs::Trees::ItemSizes::most_item_size))]
pub(crate) fn spell_item(alloc: Global, item: &KeptItem) -> Result<SExpr, AllocError>
    ensures { IfOk result (λ sexpr. sexpr_of sexpr ≡ item_sexpr (item_of item.now)) }
{
    match item {
        KeptItem::Int { val, .. } => signed(alloc, *val),
        KeptItem::Big { val, .. } => natural(alloc, *val),
        KeptItem::Symbol(symbol) => name(alloc, symbol),
        KeptItem::At { .. } => atom(alloc, "@"),
        KeptItem::List { items, .. } => {
            let list = ListBuilder::new(alloc);
            Ok(add_items(alloc, list, items.as_slice())?.build())
        }
    }
}

/// A list with items more.
#[cycle(spell_item)]
#[tactic(auto, using(isle_ast::proofs::Trees::ItemSizes::most_item_size))]
fn add_items(
    alloc: Global,
    list: ListBuilder,
    items: &[KeptItem],
) -> Result<ListBuilder, AllocError>
    ensures { IfOk result (λ longer. longer ≡ list ++ item_sexprs (items_of items.now)) }
{
    let mut longer = list;
    for item in items {
        longer = longer.item(spell_item(alloc, item)?)?;
    }
    Ok(longer)
}
