//! Tokens that the parser looks at and takes one by one, and the fault where another one is wanted.
ghost use Rattle.std.specs.Prelude.{◌≡◌, ◌<◌, [], true, IfOk, IfErr, length};
ghost use Rattle.isle_syntax.specs.Tokens.Names.{is_word, is_ident, is_const};
ghost use Rattle.isle_syntax.specs.Tokens.LexerCalls.{GivesToken, IsRemaining};
ghost use Rattle.isle_syntax.specs.Grammar.Phrases.{next_symbol_is};
ghost use Rattle.isle_syntax.specs.Tokens.RemainingTokens.{remaining_pos};
ghost use Rattle.isle_syntax.specs.Inside.Reading.KindOf.{kind_at, keyword_at, literal_of};
ghost use Rattle.isle_syntax.specs.Inside.Reading.Parsing.{Gives, RefusesAt, NoToken, ForMemory, IsKnown, TakesOr, TakesWord, at_fault, at_deep};
ghost use Rattle.isle_syntax.specs.Inside.Reading.Readers.{opened_within, closed, seq, any_symbol, word, says, after_close, after_at, at_pos, integer};
ghost use Rattle.isle_syntax.specs.Inside.Reading.Readers.{is_int_next};
ghost use Rattle.isle_syntax.specs.Inside.Reading.TreeReading.{after_dollar};
ghost use Rattle.isle_syntax.specs.Inside.Reading.DefReading.{identifier, constant, is_symbol_next};

use crate::gap::after_char;
use crate::kind::{Keyword, Kind, Literal, is_const, keyword_in, kind_of};
use crate::lexer::Token;
use crate::parser::Parser;
use crate::parser::messages::{expected, in_order};
use crate::symbol::is_ident;
use isle_ast::ast::Ident;
use isle_ast::error::{Error, Span};
use isle_ast::pos::Pos;
use isle_ast::{Refusal, Text};
use std::alloc::{AllocError, Global};

impl<'src> Parser<'src> {
    /// Where the next token begins, or the end.
    pub(crate) fn pos(&self) -> Pos
        ensures { result ≡ remaining_pos self.now }
    {
        self.lexer.pos()
    }

    /// The allocator that trees are made on.
    pub(crate) fn allocator(&self) -> Global
        ensures { IsRemaining self.now }
    {
        self.lexer.allocator()
    }

    /// The fault of the token that stands next.
    pub(crate) fn unexpected(&self, wanted: &str) -> Refusal<Error>
        ensures { RefusesAt self.now self.now result (at_fault self.now.left) }
    {
        let span = Span::at(self.pos());
        match expected(self.allocator(), wanted, self.lexer.peek()) {
            Ok(msg) => Refusal::Fault(Error::ParseError {
                msg: Text::new(msg),
                span,
            }),
            Err(e) => Refusal::Memory(e),
        }
    }

    /// The fault of an opening parenthesis that nests too deep.
    pub(crate) fn too_deep(&self) -> Refusal<Error>
        ensures { RefusesAt self.now self.now result (at_deep self.now.left) }
    {
        let span = Span::at(self.pos());
        match Text::from_str(self.allocator(), "parentheses nest more than 1000 deep") {
            Ok(msg) => Refusal::Fault(Error::SizeError { msg, span }),
            Err(e) => Refusal::Memory(e),
        }
    }

    /// What kind of token stands next; a refusal where what stands next is no token.
    pub(crate) fn kind(&mut self) -> Result<Kind, Refusal<Error>>
        ensures kind { IfOk result (λ kind. kind ≡ kind_at self.old.left) }
        ensures known { IfOk result (λ kind. IsKnown self.old self.new) }
        ensures no_token { IfErr result (NoToken self.old self.new) }
    {
        if let Some(token) = self.lexer.peek() {
            return Ok(kind_of(token));
        }
        match self.lexer.next()? {
            Some(_) => Err(self.unexpected("a token")),
            None => Ok(Kind::End),
        }
    }

    /// What word of the language stands next; a refusal where what stands next is no token.
    pub(crate) fn keyword(&mut self) -> Result<Keyword, Refusal<Error>>
        ensures keyword { IfOk result (λ keyword. keyword ≡ keyword_at self.old.left) }
        ensures known { IfOk result (λ keyword. IsKnown self.old self.new) }
        ensures no_token { IfErr result (NoToken self.old self.new) }
    {
        let _kind = self.kind()?;
        match self.lexer.peek() {
            Some(token) => Ok(keyword_in(token)),
            None => Ok(Keyword::NoKeyword),
        }
    }

    /// Whether this word stands next; a refusal where what stands next is no token.
    pub(crate) fn is_word(&mut self, word: &str) -> Result<bool, Refusal<Error>>
        ensures same_word { IfOk result (λ same. same ≡ next_symbol_is (is_word word.now) self.old.left) }
        ensures known { IfOk result (λ same. IsKnown self.old self.new) }
        ensures no_token { IfErr result (NoToken self.old self.new) }
    {
        let _kind = self.kind()?;
        match self.lexer.peek() {
            Some((_, Token::Symbol(text))) => Ok(text.as_str() == word),
            _ => Ok(false),
        }
    }

    /// Takes the next token.
    fn take(&mut self) -> Result<(Pos, Token), Refusal<Error>>
        ensures taken { IfOk result (λ token. GivesToken self.old self.new token) }
        ensures no_token { IfErr result (NoToken self.old self.new) }
    {
        match self.lexer.next()? {
            Some(token) => Ok(token),
            None => Err(self.unexpected("a token")),
        }
    }

    /// Takes an opening parenthesis, where `depth_left` more may nest, and answers where it stands.
    pub(crate) fn open(&mut self, depth_left: usize) -> Result<Pos, Refusal<Error>>
        ensures opened { Gives (λ p. p) self.old self.new result (opened_within depth_left self.old.left) }
        ensures some_depth_left { IfOk result (λ p. 0 < depth_left) }
    {
        match self.kind()? {
            Kind::Open if depth_left == 0 => Err(self.too_deep()),
            Kind::Open => Ok(self.take()?.0),
            _ => Err(self.unexpected("'('")),
        }
    }

    /// Takes the opening parenthesis behind the name of a declared term. A refusal where that is a flag says the flags' order.
    pub(crate) fn open_arguments(
        &mut self,
        term: &Ident,
        depth_left: usize,
    ) -> Result<Pos, Refusal<Error>>
        ensures opened { Gives (λ p. p) self.old self.new result (opened_within depth_left self.old.left) }
        ensures some_depth_left { IfOk result (λ p. 0 < depth_left) }
    {
        match self.open(depth_left) {
            Ok(pos) => Ok(pos),
            Err(refusal) => Err(in_order(refusal, term)),
        }
    }

    /// Takes a closing parenthesis.
    pub(crate) fn close(&mut self) -> Result<(), Refusal<Error>>
        ensures { Gives (λ x. x) self.old self.new result (closed self.old.left) }
    {
        match self.kind()? {
            Kind::Close => {
                let _close = self.take()?;
                Ok(())
            }
            _ => Err(self.unexpected("')'")),
        }
    }

    /// Takes a closing parenthesis where one stands next, and answers whether it did.
    pub(crate) fn take_close(&mut self) -> Result<bool, Refusal<Error>>
        ensures taken { IfOk result (TakesOr self.old self.new (after_close self.old.left)) }
        ensures no_token { IfErr result (NoToken self.old self.new) }
    {
        match self.kind()? {
            Kind::Close => {
                let _close = self.take()?;
                Ok(true)
            }
            _ => Ok(false),
        }
    }

    /// Takes an `@` where one stands next, and answers whether it did. Where no token stands next, that isn't reported yet.
    pub(crate) fn take_at(&mut self) -> Result<bool, Refusal<Error>>
        ensures taken { IfOk result (TakesOr self.old self.new (after_at self.old.left)) }
        ensures memory { IfErr result ForMemory }
    {
        let Some(token) = self.lexer.peek() else {
            return Ok(false);
        };
        match kind_of(token) {
            Kind::At => {
                let _at = self.take()?;
                Ok(true)
            }
            _ => Ok(false),
        }
    }

    /// Whether a symbol stands next; a refusal where what stands next is no token.
    pub(crate) fn is_symbol(&mut self) -> Result<bool, Refusal<Error>>
        ensures symbol { IfOk result (λ same. same ≡ is_symbol_next self.old.left) }
        ensures known { IfOk result (λ same. IsKnown self.old self.new) }
        ensures no_token { IfErr result (NoToken self.old self.new) }
    {
        let _kind = self.kind()?;
        match self.lexer.peek() {
            Some((_, token)) => Ok(token.is_sym()),
            None => Ok(false),
        }
    }

    /// Takes a symbol.
    pub(crate) fn symbol(&mut self, wanted: &str) -> Result<Ident, Refusal<Error>>
        ensures { Gives (λ x. x) self.old self.new result (any_symbol self.old.left) }
    {
        if !self.is_symbol()? {
            return Err(self.unexpected(wanted));
        }
        match self.take()? {
            (pos, Token::Symbol(text)) => Ok(Ident(text, pos)),
            _ => Err(self.unexpected(wanted)),
        }
    }

    /// Takes this word, and answers where it stands.
    pub(crate) fn word(&mut self, wanted: &str) -> Result<Pos, Refusal<Error>>
        ensures { Gives (λ p. p) self.old self.new result (word wanted.now self.old.left) }
    {
        if !self.is_word(wanted)? {
            return Err(self.unexpected(wanted));
        }
        let (pos, _) = self.take()?;
        Ok(pos)
    }

    /// Takes this word.
    pub(crate) fn says(&mut self, wanted: &str) -> Result<(), Refusal<Error>>
        ensures { Gives (λ x. x) self.old self.new result (says wanted.now self.old.left) }
    {
        if !self.is_word(wanted)? {
            return Err(self.unexpected(wanted));
        }
        let _word = self.take()?;
        Ok(())
    }

    /// Takes this word where it stands next, and answers whether it did.
    pub(crate) fn take_word(&mut self, wanted: &str) -> Result<bool, Refusal<Error>>
        ensures taken { IfOk result (TakesWord self.old self.new wanted.now) }
        ensures no_token { IfErr result (NoToken self.old self.new) }
    {
        if !self.is_word(wanted)? {
            return Ok(false);
        }
        let _word = self.take()?;
        Ok(true)
    }

    /// Whether an identifier stands next; a refusal where what stands next is no token.
    pub(crate) fn is_ident(&mut self) -> Result<bool, Refusal<Error>>
        ensures ident { IfOk result (λ same. same ≡ next_symbol_is is_ident self.old.left) }
        ensures known { IfOk result (λ same. IsKnown self.old self.new) }
        ensures no_token { IfErr result (NoToken self.old self.new) }
    {
        let _kind = self.kind()?;
        match self.lexer.peek() {
            Some((_, Token::Symbol(text))) => Ok(is_ident(text.as_str())),
            _ => Ok(false),
        }
    }

    /// Takes an identifier, of which a message says what is wanted.
    pub(crate) fn ident(&mut self, wanted: &str) -> Result<Ident, Refusal<Error>>
        ensures { Gives (λ x. x) self.old self.new result (identifier self.old.left) }
    {
        if !self.is_ident()? {
            return Err(self.unexpected(wanted));
        }
        self.symbol(wanted)
    }

    /// Takes an identifier, the name of a rule.
    pub(crate) fn rule_name(&mut self) -> Result<Ident, Refusal<Error>>
        ensures { Gives (λ x. x) self.old self.new result (identifier self.old.left) }
    {
        self.ident("a rule's name")
    }

    /// Takes an identifier and the closing parenthesis behind it.
    pub(crate) fn last_ident(&mut self, wanted: &str) -> Result<Ident, Refusal<Error>>
        ensures { Gives (λ x. (x, tt)) self.old self.new result (seq identifier closed self.old.left) }
    {
        let ident = self.ident(wanted)?;
        self.close()?;
        Ok(ident)
    }

    /// Takes two identifiers and the closing parenthesis behind them.
    pub(crate) fn last_idents(
        &mut self,
        wanted: &str,
        behind: &str,
    ) -> Result<(Ident, Ident), Refusal<Error>>
        ensures { Gives (λ x. (x.0, (x.1, tt))) self.old self.new result (seq identifier (seq identifier closed) self.old.left) }
    {
        let first = self.ident(wanted)?;
        let second = self.last_ident(behind)?;
        Ok((first, second))
    }

    /// Takes an `@`, and answers where it stands.
    pub(crate) fn at_sign(&mut self) -> Result<Pos, Refusal<Error>>
        ensures { Gives (λ p. p) self.old self.new result (at_pos self.old.left) }
    {
        match self.kind()? {
            Kind::At => Ok(self.take()?.0),
            _ => Err(self.unexpected("'@'")),
        }
    }

    /// Takes an integer, and answers where it stands.
    pub(crate) fn integer(&mut self) -> Result<(Pos, Literal), Refusal<Error>>
        ensures { Gives (λ x. (x.0, literal_of x.1)) self.old self.new result (integer self.old.left) }
    {
        if !self.is_int()? {
            return Err(self.unexpected("an integer"));
        }
        match self.take()? {
            (pos, Token::Int(val)) => Ok((pos, Literal::Int(val))),
            (pos, Token::Big(val)) => Ok((pos, Literal::Big(val))),
            _ => Err(self.unexpected("an integer")),
        }
    }

    /// Whether an integer stands next; a refusal where what stands next is no token.
    fn is_int(&mut self) -> Result<bool, Refusal<Error>>
        ensures integer { IfOk result (λ same. same ≡ is_int_next self.old.left) }
        ensures known { IfOk result (λ same. IsKnown self.old self.new) }
        ensures no_token { IfErr result (NoToken self.old self.new) }
    {
        let _kind = self.kind()?;
        match self.lexer.peek() {
            Some((_, token)) => Ok(token.is_int()),
            None => Ok(false),
        }
    }

    /// Takes a constant, and answers its name.
    pub(crate) fn constant(&mut self) -> Result<Ident, Refusal<Error>>
        ensures { Gives (λ x. x) self.old self.new result (constant self.old.left) }
    {
        if !self.is_const()? {
            return Err(self.unexpected("a constant"));
        }
        let name = self.symbol("a constant")?;
        Ok(Ident(self.after_dollar(name.0.as_str())?, name.1))
    }

    /// A constant's name, which stands behind its `$`.
    fn after_dollar(&self, constant: &str) -> Result<Text, AllocError>
        requires { is_const constant.now ≡ true }
        ensures { IfOk result (λ name. name ≡ after_dollar constant.now) }
    {
        Text::from_str(self.allocator(), after_char(constant))
    }

    /// Whether a constant stands next; a refusal where what stands next is no token.
    fn is_const(&mut self) -> Result<bool, Refusal<Error>>
        ensures constant { IfOk result (λ same. same ≡ next_symbol_is is_const self.old.left) }
        ensures known { IfOk result (λ same. IsKnown self.old self.new) }
        ensures no_token { IfErr result (NoToken self.old self.new) }
    {
        let _kind = self.kind()?;
        match self.lexer.peek() {
            Some((_, Token::Symbol(text))) => Ok(is_const(text.as_str())),
            _ => Ok(false),
        }
    }
}
