//! The definition that a parse error leaves open.
ghost use Rattle.isle_syntax.specs.Inside.Told.{TellsSame};

use crate::kind::{Keyword, keyword_of};
use crate::lexer::{Lexer, Token};
use crate::parser::messages::{below, unchanged};
use isle_ast::Refusal;
use isle_ast::error::Error;
use isle_ast::files::LineMap;
use isle_ast::pos::Pos;
use std::alloc::{AllocError, Global};

/// The text of a file that is parsed.
#[derive(Clone, Copy)]
pub(crate) struct Source<'src> {
    pub(crate) alloc: Global,
    pub(crate) file: usize,
    pub(crate) text: &'src str,
}

/// How far the tokens of a text nest.
#[derive(Clone, Copy)]
struct Nesting {
    /// How many parentheses are open.
    depth: usize,
    /// Where the last definition begins.
    begun: usize,
    /// Whether the last token opens a list inside a definition.
    opens: bool,
    /// Whether the word of a definition begins a list inside the last definition.
    swallows: bool,
    /// Whether the text ended where the fault is.
    ended: bool,
}

/// Whether a definition begins with this word.
fn begins_definition(text: &str) -> bool {
    match keyword_of(text) {
        Keyword::Type
        | Keyword::Decl
        | Keyword::Rule
        | Keyword::Extractor
        | Keyword::Extern
        | Keyword::Convert => true,
        _ => false,
    }
}

impl Nesting {
    /// Nothing is open.
    fn new() -> Nesting {
        Nesting {
            depth: 0,
            begun: 0,
            opens: false,
            swallows: false,
            ended: false,
        }
    }

    /// Behind an opening parenthesis at an offset.
    fn open(self, offset: usize) -> Nesting {
        let outside = self.depth == 0;
        Nesting {
            depth: self.depth.saturating_add(1),
            begun: if outside { offset } else { self.begun },
            opens: !outside,
            swallows: self.swallows && !outside,
            ended: false,
        }
    }

    /// Behind a token at an offset.
    fn behind(self, offset: usize, token: &Token) -> Nesting {
        let mut next = self;
        next.opens = false;
        match token {
            Token::LParen => return self.open(offset),
            Token::RParen => next.depth = self.depth.saturating_sub(1),
            Token::Symbol(text) => {
                if self.opens && begins_definition(text.as_str()) {
                    next.swallows = true;
                }
            }
            Token::At | Token::Int(_) | Token::Big(_) => {}
        }
        next
    }

    /// The same where a lexer gave its last token: whether the text ended by an offset.
    fn ending(self, lexer: &Lexer<'_>, end: usize) -> Nesting {
        let mut next = self;
        next.ended = lexer.eof() && lexer.pos().offset <= end;
        next
    }

    /// Whether the last definition isn't closed.
    fn is_unclosed(self) -> bool {
        self.depth > 0 && (self.swallows || self.ended)
    }
}

/// The next token and its position; `None` at the text's end, and where no token begins.
fn next_token(lexer: &mut Lexer<'_>) -> Result<Option<(Pos, Token)>, AllocError> {
    match lexer.next() {
        Ok(token) => Ok(token),
        Err(Refusal::Fault(_)) => Ok(None),
        Err(Refusal::Memory(e)) => Err(e),
    }
}

impl Source<'_> {
    /// How far the tokens nest up to an offset, and one behind it where a parenthesis opens there.
    fn nesting(&self, end: usize) -> Result<Nesting, AllocError> {
        let mut lexer = Lexer::new(self.alloc, self.file, self.text);
        let mut nesting = Nesting::new();
        for _ in 0..self.text.len() {
            if lexer.pos().offset > end && !nesting.opens {
                return Ok(nesting);
            }
            match next_token(&mut lexer)? {
                Some((pos, token)) => nesting = nesting.behind(pos.offset, &token),
                None => return Ok(nesting.ending(&lexer, end)),
            }
        }
        Ok(nesting.ending(&lexer, end))
    }

    /// `the definition that begins at LINE:COLUMN is not closed`.
    fn unclosed(&self, begun: usize) -> Result<String, AllocError> {
        let lines = LineMap::from_str(self.alloc, self.text)?;
        let line = lines.line(begun) + 1;
        let column = (begun - lines.start(begun)).saturating_add(1);
        format!(in self.alloc; "the definition that begins at {line}:{column} is not closed")
    }

    /// Where the definition begins that a parse error leaves open.
    fn open_at(&self, refusal: &Refusal<Error>) -> Result<Option<usize>, AllocError> {
        let Refusal::Fault(Error::ParseError { span, .. }) = refusal else {
            return Ok(None);
        };
        let nesting = self.nesting(span.from.offset)?;
        if nesting.is_unclosed() {
            Ok(Some(nesting.begun))
        } else {
            Ok(None)
        }
    }

    /// The line that a refusal says more.
    fn line_below(&self, refusal: &Refusal<Error>) -> Result<Option<String>, AllocError> {
        match self.open_at(refusal)? {
            Some(begun) => Ok(Some(self.unclosed(begun)?)),
            None => Ok(None),
        }
    }

    /// A refusal that names the definition that isn't closed, where one is open.
    pub(crate) fn tell(&self, refusal: Refusal<Error>) -> Refusal<Error>
        ensures { TellsSame refusal result }
    {
        match self.line_below(&refusal) {
            Ok(Some(line)) => below(refusal, line.as_str()),
            Ok(None) => unchanged(refusal),
            Err(e) => Refusal::Memory(e),
        }
    }
}
