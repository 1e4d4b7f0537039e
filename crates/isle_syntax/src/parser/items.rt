//! Items of kept definitions, read from tokens.
ghost use Rattle.std.specs.Prelude.{◌≡◌, map};
ghost use Rattle.isle_ast.specs.Trees.ItemShape.{item_of};
ghost use Rattle.isle_syntax.specs.Inside.Reading.Parsing.{Gives};
ghost use Rattle.isle_syntax.specs.Inside.Reading.Readers.{rest_of};
ghost use Rattle.isle_syntax.specs.Inside.Reading.TreeReading.{item, item_list_reader};

use crate::kind::{Kind, Literal};
use crate::parser::Parser;
use isle_ast::Refusal;
use isle_ast::ast::{KeptItem, KeptItems};
use isle_ast::error::Error;

impl<'src> Parser<'src> {
    /// An item of a kept definition.
    #[cycle(item)]
    fn parse_item(&mut self, depth_left: usize) -> Result<KeptItem, Refusal<Error>>
        ensures { Gives item_of self.old self.new result (item depth_left self.old.left) }
    {
        match self.kind()? {
            Kind::Open => self.parse_item_list(depth_left),
            Kind::Close => Err(self.unexpected("an item")),
            Kind::End => Err(self.unexpected("an item")),
            Kind::At => Ok(KeptItem::At {
                pos: self.at_sign()?,
            }),
            Kind::Int => match self.integer()? {
                (pos, Literal::Int(val)) => Ok(KeptItem::Int { val, pos }),
                (pos, Literal::Big(val)) => Ok(KeptItem::Big { val, pos }),
            },
            _ => Ok(KeptItem::Symbol(self.symbol("an item")?)),
        }
    }

    #[cycle(item)]
    fn parse_item_list(&mut self, depth_left: usize) -> Result<KeptItem, Refusal<Error>>
        ensures { Gives item_of self.old self.new result (item_list_reader depth_left self.old.left) }
    {
        let pos = self.open(depth_left)?;
        let items = self.parse_items(depth_left - 1)?;
        Ok(KeptItem::List {
            items: KeptItems::new(items),
            pos,
        })
    }

    /// The items up to the closing parenthesis.
    #[cycle(item)]
    pub(crate) fn parse_items(&mut self, depth_left: usize) -> Result<Vec<KeptItem>, Refusal<Error>>
        ensures { Gives (λ v. map item_of v.items) self.old self.new result (rest_of (item depth_left) self.old.left) }
    {
        let mut items = Vec::new(self.allocator());
        'items: while !self.take_close()? {
            items.push(self.parse_item(depth_left)?)?;
        }
        Ok(items)
    }
}
