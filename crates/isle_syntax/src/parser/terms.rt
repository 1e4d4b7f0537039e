//! Declarations, extractors, external definitions, converters and kept definitions, read from tokens.
ghost use Rattle.std.specs.Prelude.{◌≡◌, IfOk, IfErr};
ghost use Rattle.isle_syntax.specs.declared.kind.Keyword.TheVariants as keyword;
ghost use Rattle.isle_syntax.specs.Grammar.Phrases.{next_symbol_is};
ghost use Rattle.isle_syntax.specs.Inside.Reading.Parsing.{Gives, NoToken, IsKnown};
ghost use Rattle.isle_syntax.specs.Inside.Reading.Readers.{read_map, symbol_of};
ghost use Rattle.isle_syntax.specs.Grammar.DefGrammar.{is_kept_word};
ghost use Rattle.isle_syntax.specs.Inside.Reading.DefReading.{signature, signature_parts, decl, extractor, extern_def, extern_on, converter, kept};

use crate::kind::{Keyword, is_kept_word};
use crate::lexer::Token;
use crate::parser::Parser;
use isle_ast::ast::{Converter, Decl, Extern, Extractor, Ident, Kept, KeptItems};
use isle_ast::error::Error;
use isle_ast::{Refusal, Seq};

impl<'src> Parser<'src> {
    /// What follows the word `decl`.
    pub(crate) fn parse_decl(&mut self, depth_left: usize) -> Result<Decl, Refusal<Error>>
        ensures { Gives (λ x. x) self.old self.new result (decl depth_left self.old.left) }
    {
        let pos = self.pos();
        let pure = self.take_word("pure")?;
        let multi = self.take_word("multi")?;
        let partial = self.take_word("partial")?;
        let rec = self.take_word("rec")?;
        let (term, arg_tys, ret_ty) = self.parse_signature(depth_left)?;
        Ok(Decl {
            term,
            arg_tys: Seq::new(arg_tys),
            ret_ty,
            pure,
            multi,
            partial,
            rec,
            pos,
        })
    }

    /// A term's name, the types of its arguments and its own, and the closing parenthesis.
    fn parse_signature(
        &mut self,
        depth_left: usize,
    ) -> Result<(Ident, Vec<Ident>, Ident), Refusal<Error>>
        ensures { Gives (λ x. (x.0, x.1.items, x.2)) self.old self.new result (read_map signature_parts (signature depth_left self.old.left)) }
    {
        let term = self.ident("a term's name")?;
        let _pos = self.open_arguments(&term, depth_left)?;
        let arg_tys = self.parse_idents("a type's name or ')'")?;
        let ret_ty = self.last_ident("a type's name")?;
        Ok((term, arg_tys, ret_ty))
    }

    /// What follows the word `extractor`.
    pub(crate) fn parse_etor(&mut self, depth_left: usize) -> Result<Extractor, Refusal<Error>>
        ensures { Gives (λ x. x) self.old self.new result (extractor depth_left self.old.left) }
    {
        let pos = self.open(depth_left)?;
        let term = self.ident("a term's name")?;
        let args = self.parse_idents("an argument's name or ')'")?;
        let template = self.parse_pattern(depth_left)?;
        self.close()?;
        Ok(Extractor {
            term,
            args: Seq::new(args),
            template,
            pos,
        })
    }

    /// What follows the word `extern`.
    pub(crate) fn parse_extern(&mut self) -> Result<Extern, Refusal<Error>>
        ensures { Gives (λ x. x) self.old self.new result (extern_def self.old.left) }
    {
        match self.keyword()? {
            Keyword::Constructor => self.parse_extern_constructor(),
            Keyword::Extractor => self.parse_extern_extractor(),
            Keyword::Const => self.parse_extern_const(),
            _ => Err(self.unexpected("constructor, extractor or const")),
        }
    }

    fn parse_extern_constructor(&mut self) -> Result<Extern, Refusal<Error>>
        ensures { Gives (λ x. x) self.old self.new result (extern_on keyword.Constructor self.old.left) }
    {
        let pos = self.word("constructor")?;
        let (term, func) = self.last_idents("a term's name", "the host's name")?;
        Ok(Extern::Constructor { term, func, pos })
    }

    fn parse_extern_extractor(&mut self) -> Result<Extern, Refusal<Error>>
        ensures { Gives (λ x. x) self.old self.new result (extern_on keyword.Extractor self.old.left) }
    {
        let pos = self.word("extractor")?;
        let infallible = self.take_word("infallible")?;
        let (term, func) = self.last_idents("a term's name", "the host's name")?;
        Ok(Extern::Extractor {
            term,
            func,
            pos,
            infallible,
        })
    }

    fn parse_extern_const(&mut self) -> Result<Extern, Refusal<Error>>
        ensures { Gives (λ x. x) self.old self.new result (extern_on keyword.Const self.old.left) }
    {
        let pos = self.word("const")?;
        let name = self.constant()?;
        let ty = self.last_ident("a type's name")?;
        Ok(Extern::Const { name, ty, pos })
    }

    /// What follows the word `convert`.
    pub(crate) fn parse_converter(&mut self) -> Result<Converter, Refusal<Error>>
        ensures { Gives (λ x. x) self.old self.new result (converter self.old.left) }
    {
        let inner_ty = self.ident("a type's name")?;
        let pos = inner_ty.1;
        let (outer_ty, term) = self.last_idents("a type's name", "a term's name")?;
        Ok(Converter {
            term,
            inner_ty,
            outer_ty,
            pos,
        })
    }

    /// A definition that is kept as it is written, with its word.
    pub(crate) fn parse_kept(&mut self, depth_left: usize) -> Result<Kept, Refusal<Error>>
        ensures { Gives (λ x. x) self.old self.new result (kept depth_left self.old.left) }
    {
        let word = self.kept_word()?;
        let pos = self.pos();
        let items = self.parse_items(depth_left)?;
        Ok(Kept {
            word,
            items: KeptItems::new(items),
            pos,
        })
    }

    /// Takes the word of a definition that is kept as it is written.
    fn kept_word(&mut self) -> Result<Ident, Refusal<Error>>
        ensures { Gives (λ x. x) self.old self.new result (symbol_of is_kept_word self.old.left) }
    {
        if !self.is_kept_next()? {
            return Err(self.unexpected("a definition"));
        }
        self.symbol("a definition")
    }

    /// Whether the word of a kept definition stands next; a refusal where what stands next is no token.
    fn is_kept_next(&mut self) -> Result<bool, Refusal<Error>>
        ensures word { IfOk result (λ same. same ≡ next_symbol_is is_kept_word self.old.left) }
        ensures known { IfOk result (λ same. IsKnown self.old self.new) }
        ensures no_token { IfErr result (NoToken self.old self.new) }
    {
        let _kind = self.kind()?;
        match self.lexer.peek() {
            Some((_, Token::Symbol(text))) => Ok(is_kept_word(text.as_str())),
            _ => Ok(false),
        }
    }
}
