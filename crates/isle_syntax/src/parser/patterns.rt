//! Patterns read from tokens, with the names that they are bound to.
ghost use Rattle.std.specs.Prelude.{◌≡◌, map, IfOk, IfErr};
ghost use Rattle.isle_syntax.specs.Grammar.Phrases.{next_symbol_is};
ghost use Rattle.isle_syntax.specs.Grammar.TreeGrammar.{bits_of, is_large};
ghost use Rattle.isle_ast.specs.Trees.PatternTree.{pattern_var, pattern_bool, pattern_int, pattern_prim, pattern_wildcard};
ghost use Rattle.isle_syntax.specs.Inside.Reading.KindReading.{unbound};
ghost use Rattle.isle_ast.specs.Trees.PatternShape.{pattern_of};
ghost use Rattle.isle_syntax.specs.Inside.Reading.Parsing.{Gives, NoToken, IsKnown};
ghost use Rattle.isle_syntax.specs.Inside.Reading.Readers.{read_map, any_symbol, integer, symbol_of, rest_of};
ghost use Rattle.isle_syntax.specs.Inside.Reading.TreeReading.{is_head, pattern, pattern_list};
ghost use Rattle.isle_syntax.specs.Inside.Reading.DefReading.{constant};

use crate::kind::Kind;
use crate::lexer::Token;
use crate::parser::Parser;
use crate::symbol::is_ident;
use isle_ast::Refusal;
use isle_ast::ast::wrap::wrap;
use isle_ast::ast::{Ident, Pattern, Patterns};
use isle_ast::error::Error;

impl<'src> Parser<'src> {
    /// A pattern, behind the names that it is bound to.
    #[cycle(pattern)]
    pub(crate) fn parse_pattern(&mut self, depth_left: usize) -> Result<Pattern, Refusal<Error>>
        ensures { Gives pattern_of self.old self.new result (pattern depth_left self.old.left) }
    {
        let mut names = Vec::new(self.allocator());
        'names: loop {
            match self.parse_unbound(depth_left)? {
                Pattern::Var { var, pos } => {
                    if !self.take_at()? {
                        return Ok(wrap(self.allocator(), names, Pattern::Var { var, pos })?);
                    }
                    names.push((var, pos))?;
                }
                inner => return Ok(wrap(self.allocator(), names, inner)?),
            }
        }
    }

    /// A pattern that is bound to no name. A name is a variable.
    #[cycle(pattern)]
    fn parse_unbound(&mut self, depth_left: usize) -> Result<Pattern, Refusal<Error>>
        ensures { Gives pattern_of self.old self.new result (unbound depth_left self.old.left) }
    {
        match self.kind()? {
            Kind::Open => self.parse_pattern_list(depth_left),
            Kind::Int => self.parse_pattern_int(),
            Kind::True => self.parse_pattern_bool(true),
            Kind::False => self.parse_pattern_bool(false),
            Kind::Const => self.parse_pattern_const(),
            Kind::Wildcard => self.parse_pattern_wildcard(),
            Kind::Name => self.parse_pattern_var(),
            Kind::End => Err(self.unexpected("a pattern")),
            Kind::Close => Err(self.unexpected("a pattern")),
            Kind::At => Err(self.unexpected("a pattern")),
            Kind::Other => Err(self.unexpected("a pattern")),
        }
    }

    /// An integer.
    fn parse_pattern_int(&mut self) -> Result<Pattern, Refusal<Error>>
        ensures { Gives pattern_of self.old self.new result (read_map (λ x. pattern_int (bits_of x.1) (is_large x.1) x.0) (integer self.old.left)) }
    {
        let (pos, literal) = self.integer()?;
        let val = literal.bits();
        let big = literal.is_big();
        Ok(Pattern::ConstInt { val, big, pos })
    }

    /// The word `true` or `false`.
    fn parse_pattern_bool(&mut self, val: bool) -> Result<Pattern, Refusal<Error>>
        ensures { Gives pattern_of self.old self.new result (read_map (λ x. pattern_bool val x.1) (any_symbol self.old.left)) }
    {
        let name = self.symbol("a pattern")?;
        Ok(Pattern::ConstBool { val, pos: name.1 })
    }

    /// A constant.
    fn parse_pattern_const(&mut self) -> Result<Pattern, Refusal<Error>>
        ensures { Gives pattern_of self.old self.new result (read_map (λ x. pattern_prim x x.1) (constant self.old.left)) }
    {
        let val = self.constant()?;
        let pos = val.1;
        Ok(Pattern::ConstPrim { val, pos })
    }

    /// The wildcard.
    fn parse_pattern_wildcard(&mut self) -> Result<Pattern, Refusal<Error>>
        ensures { Gives pattern_of self.old self.new result (read_map (λ x. pattern_wildcard x.1) (any_symbol self.old.left)) }
    {
        let name = self.symbol("a pattern")?;
        Ok(Pattern::Wildcard { pos: name.1 })
    }

    /// A variable.
    fn parse_pattern_var(&mut self) -> Result<Pattern, Refusal<Error>>
        ensures { Gives pattern_of self.old self.new result (read_map (λ x. pattern_var x x.1) (any_symbol self.old.left)) }
    {
        let var = self.symbol("a pattern")?;
        let pos = var.1;
        Ok(Pattern::Var { var, pos })
    }

    /// A term or `and`, with its patterns.
    #[cycle(pattern)]
    pub(crate) fn parse_pattern_list(
        &mut self,
        depth_left: usize,
    ) -> Result<Pattern, Refusal<Error>>
        ensures { Gives pattern_of self.old self.new result (pattern_list depth_left self.old.left) }
    {
        let pos = self.open(depth_left)?;
        let sym = self.head()?;
        let args = self.parse_patterns(depth_left - 1)?;
        let args = Patterns::new(args);
        if sym.0.as_str() == "and" {
            Ok(Pattern::And { subpats: args, pos })
        } else {
            Ok(Pattern::Term { sym, args, pos })
        }
    }

    /// The patterns up to the closing parenthesis.
    #[cycle(pattern)]
    fn parse_patterns(&mut self, depth_left: usize) -> Result<Vec<Pattern>, Refusal<Error>>
        ensures { Gives (λ v. map pattern_of v.items) self.old self.new result (rest_of (pattern depth_left) self.old.left) }
    {
        let mut patterns = Vec::new(self.allocator());
        'all: while !self.take_close()? {
            patterns.push(self.parse_pattern(depth_left)?)?;
        }
        Ok(patterns)
    }

    /// The word `and` or an identifier.
    fn head(&mut self) -> Result<Ident, Refusal<Error>>
        ensures { Gives (λ x. x) self.old self.new result (symbol_of is_head self.old.left) }
    {
        if !self.is_head()? {
            return Err(self.unexpected("a term's name"));
        }
        self.symbol("a term's name")
    }

    /// Whether the word `and` or an identifier stands next; a refusal where what stands next is no token.
    fn is_head(&mut self) -> Result<bool, Refusal<Error>>
        ensures head { IfOk result (λ same. same ≡ next_symbol_is is_head self.old.left) }
        ensures known { IfOk result (λ same. IsKnown self.old self.new) }
        ensures no_token { IfErr result (NoToken self.old self.new) }
    {
        let _kind = self.kind()?;
        match self.lexer.peek() {
            Some((_, Token::Symbol(text))) => {
                Ok(text.as_str() == "and" || is_ident(text.as_str()))
            }
            _ => Ok(false),
        }
    }
}
