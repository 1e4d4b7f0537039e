//! A builder of lists of S-expressions, and the atoms of words, names and constants.
ghost use Rattle.std.specs.Prelude.{◌≡◌, ◌++◌, ◌∷◌, [], map, IfOk};
ghost use Rattle.isle_layout.specs.SExprTree.{sexpr_atom};
ghost use Rattle.isle_layout.specs.SExprShape.{sexpr_of};
ghost use Rattle.isle_layout.specs.Spellings.{listed, name_sexpr, constant_sexpr};
ghost use Rattle.isle_layout.specs.DefSpellings.{flag};

use crate::sexpr::{SExpr, SExprs};
use isle_syntax::Text;
use isle_syntax::ast::Ident;
use std::alloc::{AllocError, Global};
use std::marker::Model;

/// A word or another text that stands alone.
pub(crate) fn atom(alloc: Global, text: &str) -> Result<SExpr, AllocError>
    ensures { IfOk result (λ sexpr. sexpr_of sexpr ≡ sexpr_atom text.now) }
{
    Ok(SExpr::Atom(Text::from_str(alloc, text)?))
}

/// A name.
pub(crate) fn name(alloc: Global, name: &Ident) -> Result<SExpr, AllocError>
    ensures { IfOk result (λ sexpr. sexpr_of sexpr ≡ name_sexpr name.now) }
{
    atom(alloc, name.0.as_str())
}

/// A constant.
pub(crate) fn constant(alloc: Global, name: &Ident) -> Result<SExpr, AllocError>
    ensures { IfOk result (λ sexpr. sexpr_of sexpr ≡ constant_sexpr name.now) }
{
    let mut text = String::from_str(alloc, "$")?;
    text.push_str(name.0.as_str())?;
    Ok(SExpr::Atom(Text::new(text)))
}

/// A list to which items are added one by one, seen as their trees.
#[derive(Drop)]
pub(crate) struct ListBuilder {
    items: Vec<SExpr>,
}

impl Model for ListBuilder {
    ghost use Rattle.std.specs.Prelude.{List, map};
    ghost use Rattle.isle_layout.specs.SExprTree.{SExprTree};
    ghost use Rattle.isle_layout.specs.SExprShape.{sexpr_of};
    ghost use Rattle.std.specs.Coded.{coded_list};
    ghost use Rattle.isle_layout.specs.Inside.SExprCode.{sexpr_tree_code};

    ghost Value = { List SExprTree };

    ghost coded = { coded_list sexpr_tree_code };

    ghost view = { λ c. map sexpr_of c.items.items };
}

impl ListBuilder {
    /// A list without items, which takes no memory.
    pub(crate) fn new(alloc: Global) -> ListBuilder
        ensures { result ≡ [] }
    {
        ListBuilder {
            items: Vec::new(alloc),
        }
    }

    /// One item more, behind the others.
    pub(crate) fn item(mut self, item: SExpr) -> Result<ListBuilder, AllocError>
        ensures { IfOk result (λ list. list ≡ self ++ sexpr_of item ∷ []) }
    {
        self.items.push(item)?;
        Ok(self)
    }

    /// A word more.
    pub(crate) fn word(self, word: &str) -> Result<ListBuilder, AllocError>
        ensures { IfOk result (λ list. list ≡ self ++ sexpr_atom word.now ∷ []) }
    {
        let alloc = *self.items.allocator();
        self.item(atom(alloc, word)?)
    }

    /// A name more.
    pub(crate) fn name(self, name: &Ident) -> Result<ListBuilder, AllocError>
        ensures { IfOk result (λ list. list ≡ self ++ name_sexpr name.now ∷ []) }
    {
        self.word(name.0.as_str())
    }

    /// Names more.
    pub(crate) fn names(self, names: &[Ident]) -> Result<ListBuilder, AllocError>
        ensures { IfOk result (λ list. list ≡ self ++ map name_sexpr names.now) }
    {
        let mut list = self;
        for name in names {
            list = list.name(name)?;
        }
        Ok(list)
    }

    /// A word more, where it is set.
    pub(crate) fn flag(self, word: &str, is_set: bool) -> Result<ListBuilder, AllocError>
        ensures { IfOk result (λ list. list ≡ self ++ flag word.now is_set) }
    {
        if is_set { self.word(word) } else { Ok(self) }
    }

    /// The list with its items between parentheses, which takes no memory.
    pub(crate) fn build(self) -> SExpr
        ensures { sexpr_of result ≡ listed self }
    {
        SExpr::List(SExprs::new(self.items))
    }
}
