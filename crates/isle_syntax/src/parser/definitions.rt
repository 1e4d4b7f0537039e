//! Definitions read from tokens, each by the word behind its opening parenthesis.
ghost use Rattle.std.specs.Prelude.{◌≡◌, IfOk, IfErr};
ghost use Rattle.isle_syntax.specs.declared.kind.Keyword.TheVariants as keyword;
ghost use Rattle.isle_syntax.specs.Inside.Reading.Parsing.{Gives};
ghost use Rattle.isle_syntax.specs.Inside.Reading.DefReading.{def, def_inner, def_on};
ghost use Rattle.isle_syntax.specs.Tokens.LexerCalls.{IsRemaining};
ghost use Rattle.isle_ast.specs.Errors.{IfFault};
ghost use Rattle.isle_syntax.specs.Grammar.Verdict.{IsSpelt, IsFaultOf};

use crate::kind::Keyword;
use crate::parser::{MAX_NESTING, Parser};
use isle_ast::Refusal;
use isle_ast::ast::Def;
use isle_ast::error::Error;

impl<'src> Parser<'src> {
    /// The definitions up to the end of the text.
    pub(crate) fn parse_defs(&mut self) -> Result<Vec<Def>, Refusal<Error>>
        ensures spelt { IfOk result (λ defs. IsSpelt self.old defs.items) }
        ensures fault { IfErr result (λ refusal. IfFault refusal (IsFaultOf self.old)) }
        ensures remaining { IsRemaining self.old }
    {
        let mut defs = Vec::new(self.allocator());
        'defs: while !self.lexer.eof() {
            defs.push(self.parse_def(MAX_NESTING)?)?;
        }
        Ok(defs)
    }

    fn parse_def(&mut self, depth_left: usize) -> Result<Def, Refusal<Error>>
        ensures { Gives (λ x. x) self.old self.new result (def depth_left self.old.left) }
    {
        let _pos = self.open(depth_left)?;
        self.parse_def_inner(depth_left - 1)
    }

    /// What follows the opening parenthesis of a definition.
    fn parse_def_inner(&mut self, depth_left: usize) -> Result<Def, Refusal<Error>>
        ensures { Gives (λ x. x) self.old self.new result (def_inner depth_left self.old.left) }
    {
        match self.keyword()? {
            Keyword::Type => self.parse_type_def(depth_left),
            Keyword::Decl => self.parse_decl_def(depth_left),
            Keyword::Rule => self.parse_rule_def(depth_left),
            Keyword::Extractor => self.parse_extractor_def(depth_left),
            Keyword::Extern => self.parse_extern_def(depth_left),
            Keyword::Convert => self.parse_converter_def(depth_left),
            Keyword::Kept => self.parse_kept_def(depth_left),
            _ => Err(self.unexpected("a definition")),
        }
    }

    fn parse_type_def(&mut self, depth_left: usize) -> Result<Def, Refusal<Error>>
        ensures { Gives (λ x. x) self.old self.new result (def_on depth_left keyword.«Type» self.old.left) }
    {
        self.says("type")?;
        Ok(Def::TypeDef(self.parse_type(depth_left)?))
    }

    fn parse_decl_def(&mut self, depth_left: usize) -> Result<Def, Refusal<Error>>
        ensures { Gives (λ x. x) self.old self.new result (def_on depth_left keyword.Decl self.old.left) }
    {
        self.says("decl")?;
        Ok(Def::Decl(self.parse_decl(depth_left)?))
    }

    fn parse_rule_def(&mut self, depth_left: usize) -> Result<Def, Refusal<Error>>
        ensures { Gives (λ x. x) self.old self.new result (def_on depth_left keyword.Rule self.old.left) }
    {
        self.says("rule")?;
        Ok(Def::Rule(self.parse_rule(depth_left)?))
    }

    fn parse_extractor_def(&mut self, depth_left: usize) -> Result<Def, Refusal<Error>>
        ensures { Gives (λ x. x) self.old self.new result (def_on depth_left keyword.Extractor self.old.left) }
    {
        self.says("extractor")?;
        Ok(Def::Extractor(self.parse_etor(depth_left)?))
    }

    fn parse_extern_def(&mut self, depth_left: usize) -> Result<Def, Refusal<Error>>
        ensures { Gives (λ x. x) self.old self.new result (def_on depth_left keyword.Extern self.old.left) }
    {
        self.says("extern")?;
        Ok(Def::Extern(self.parse_extern()?))
    }

    fn parse_converter_def(&mut self, depth_left: usize) -> Result<Def, Refusal<Error>>
        ensures { Gives (λ x. x) self.old self.new result (def_on depth_left keyword.Convert self.old.left) }
    {
        self.says("convert")?;
        Ok(Def::Converter(self.parse_converter()?))
    }

    fn parse_kept_def(&mut self, depth_left: usize) -> Result<Def, Refusal<Error>>
        ensures { Gives (λ x. x) self.old self.new result (def_on depth_left keyword.Kept self.old.left) }
    {
        Ok(Def::Kept(self.parse_kept(depth_left)?))
    }
}
