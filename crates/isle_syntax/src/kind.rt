//! Kinds of tokens, words of the language and integer literals, by which the parser decides.
ghost use Rattle.std.specs.Prelude.{◌≡◌, ◌∷◌, [], codes, cond};
ghost use Rattle.isle_syntax.specs.declared.kind.Keyword.TheVariants as keyword;
ghost use Rattle.isle_syntax.specs.Tokens.Names.{is_const, is_word};
ghost use Rattle.isle_syntax.specs.Tokens.PlacedTokens.{placed};
ghost use Rattle.isle_syntax.specs.Grammar.TreeGrammar.{bits_of, is_large};
ghost use Rattle.isle_syntax.specs.Inside.Reading.KindOf.{symbol_kind, kind_of, keyword_of, keyword_in, literal_of};
ghost use Rattle.isle_syntax.specs.Grammar.DefGrammar.{is_kept_word};

use crate::gap::after_char;
use crate::lexer::Token;
use crate::symbol::{begins_dollar, is_const_name, is_name};
use isle_ast::pos::Pos;

/// What kind of token stands next. A symbol's kind is the first of these that it is.
#[derive(Clone, Copy, PartialEq, Eq)]
pub enum Kind {
    /// The text's end.
    End,
    Open,
    Close,
    At,
    Int,
    /// The symbol `true`.
    True,
    /// The symbol `false`.
    False,
    /// A constant, `$` and its name.
    Const,
    /// The symbol `_`.
    Wildcard,
    /// A name of a variable.
    Name,
    /// Another symbol.
    Other,
}

/// What word of the language stands next.
#[derive(Clone, Copy, PartialEq, Eq)]
pub enum Keyword {
    Type,
    Decl,
    Rule,
    Extractor,
    Extern,
    Convert,
    /// A word of a definition that is kept as it is written.
    Kept,
    NoDebug,
    Primitive,
    Enum,
    Struct,
    Constructor,
    Const,
    /// Another word, or no word.
    NoKeyword,
}

/// An integer: one of an i128, or one from 2^127 on.
#[derive(Clone, Copy, PartialEq, Eq)]
pub enum Literal {
    Int(i128),
    Big(u128),
}

impl Literal {
    /// The 128 bits of the integer.
    pub fn bits(self) -> i128
        ensures { result ≡ bits_of (literal_of self) }
    {
        match self {
            Literal::Int(val) => val,
            Literal::Big(val) => val.cast_signed(),
        }
    }

    /// Whether the integer is 2^127 or more.
    pub fn is_big(self) -> bool
        ensures { result ≡ is_large (literal_of self) }
    {
        matches!(self, Literal::Big(_))
    }
}

/// Whether a symbol is a constant: `$` and its name.
#[tactic(auto, unfolding(crate::specs::Tokens::Names::is_const))]
pub fn is_const(text: &str) -> bool
    ensures { result ≡ is_const text.now }
{
    begins_dollar(text) && is_const_name(after_char(text))
}

/// The first kind that a symbol is of.
#[tactic(auto, unfolding(crate::specs::Inside::Reading::KindOf::symbol_kind))]
pub fn symbol_kind(text: &str) -> Kind
    ensures { result ≡ symbol_kind text.now }
{
    if text == "true" {
        Kind::True
    } else if text == "false" {
        Kind::False
    } else if is_const(text) {
        Kind::Const
    } else if text == "_" {
        Kind::Wildcard
    } else if is_name(text) {
        Kind::Name
    } else {
        Kind::Other
    }
}

/// The kind of a token.
pub fn kind_of(token: &(Pos, Token)) -> Kind
    ensures { result ≡ kind_of (placed token.now) }
{
    match &token.1 {
        Token::LParen => Kind::Open,
        Token::RParen => Kind::Close,
        Token::At => Kind::At,
        Token::Symbol(text) => symbol_kind(text.as_str()),
        Token::Int(_) => Kind::Int,
        Token::Big(_) => Kind::Int,
    }
}

/// Whether a definition that begins with this word is kept as it is written.
pub fn is_kept_word(text: &str) -> bool
    ensures { result ≡ is_kept_word text.now }
{
    text == "attr"
        || text == "spec"
        || text == "macro"
        || text == "model"
        || text == "state"
        || text == "form"
        || text == "instantiate"
}

/// The word of the language that a symbol is.
#[tactic(auto, unfolding(crate::specs::Inside::Reading::KindOf::keyword_of))]
pub fn keyword_of(text: &str) -> Keyword
    ensures { result ≡ keyword_of text.now }
{
    if is_kept_word(text) {
        Keyword::Kept
    } else if text == "type" {
        Keyword::Type
    } else if text == "decl" {
        Keyword::Decl
    } else if text == "rule" {
        Keyword::Rule
    } else if text == "extractor" {
        Keyword::Extractor
    } else if text == "extern" {
        Keyword::Extern
    } else if text == "convert" {
        Keyword::Convert
    } else {
        keyword_inside(text)
    }
}

/// The word of the language that a symbol is, among those that begin no definition.
fn keyword_inside(text: &str) -> Keyword
    ensures { result ≡ cond (is_word (codes "nodebug") text.now) keyword.NoDebug
        (cond (is_word (codes "primitive") text.now) keyword.Primitive
        (cond (is_word (codes "enum") text.now) keyword.Enum
        (cond (is_word (codes "struct") text.now) keyword.Struct
        (cond (is_word (codes "constructor") text.now) keyword.Constructor
        (cond (is_word (codes "const") text.now) keyword.Const keyword.NoKeyword))))) }
{
    if text == "nodebug" {
        Keyword::NoDebug
    } else if text == "primitive" {
        Keyword::Primitive
    } else if text == "enum" {
        Keyword::Enum
    } else if text == "struct" {
        Keyword::Struct
    } else if text == "constructor" {
        Keyword::Constructor
    } else if text == "const" {
        Keyword::Const
    } else {
        Keyword::NoKeyword
    }
}

/// The word of the language that a token is.
pub fn keyword_in(token: &(Pos, Token)) -> Keyword
    ensures { result ≡ keyword_in (placed token.now) }
{
    match &token.1 {
        Token::Symbol(text) => keyword_of(text.as_str()),
        _ => Keyword::NoKeyword,
    }
}
