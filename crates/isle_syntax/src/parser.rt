//! The parser, which gives the definitions that a text spells, with or without their positions.
ghost use Rattle.std.specs.Prelude.{◌≡◌, All, IfOk, IfErr};
ghost use Rattle.isle_syntax.specs.Tokens.RemainingTokens.{IsIn};
ghost use Rattle.isle_syntax.specs.Tokens.LexerCalls.{IsRemaining};
ghost use Rattle.isle_ast.specs.Errors.{IfFault, IfKind, IsOfKinds, RefusalAt, parse_error, size_error};
ghost use Rattle.isle_ast.specs.Positions.DefPositions.{DefAt};
ghost use Rattle.isle_ast.specs.Trees.MacroArgs.{HasNoMacroArgs};
ghost use Rattle.isle_syntax.specs.Positions.RuleOrder.{RulesAscend};
ghost use Rattle.isle_syntax.specs.Grammar.Verdict.{IsSpelt, IsSpeltWithoutPos, IsFaultOf, FaultAt, DeepAt};

mod definitions;
mod exprs;
mod items;
mod messages;
mod patterns;
mod rules;
mod terms;
mod tokens;
mod types;
pub(crate) mod unclosed;

pub use crate::kind::is_kept_word;
use crate::lexer::Lexer;
use crate::without_pos::def_without_pos;
use isle_ast::Refusal;
use isle_ast::ast::Def;
use isle_ast::error::Error;
use std::marker::Model;

/// How many parentheses may be open at once.
pub const MAX_NESTING: usize = 1000;

/// The definitions that a text spells. A refusal is the parse error at the first token after which no spelt text goes
/// on, or the size error at the opening parenthesis that nests too deep, whichever stands first.
pub fn parse(lexer: Lexer<'_>) -> Result<Vec<Def>, Refusal<Error>>
    ensures spelt { IfOk result (λ defs. IsSpelt lexer.entry defs.items) }
    ensures fault { IfErr result (IfKind parse_error (FaultAt lexer.entry)) }
    ensures too_deep { IfErr result (IfKind size_error (DeepAt lexer.entry)) }
    ensures kinds { IfErr result (IsOfKinds parse_error size_error) }
    ensures placed { IfOk result (λ defs. All (DefAt (IsIn lexer.entry.source)) defs.items) }
    ensures refused { IfErr result (RefusalAt (IsIn lexer.entry.source)) }
    ensures no_macro_args { IfOk result (λ defs. All HasNoMacroArgs defs.items) }
    ensures ascending { IfOk result (λ defs. RulesAscend defs.items) }
{
    parse_told(lexer)
}

/// The same, where a parse error names the definition that isn't closed, if one is open.
fn parse_told(lexer: Lexer<'_>) -> Result<Vec<Def>, Refusal<Error>>
    ensures spelt { IfOk result (λ defs. IsSpelt lexer.entry defs.items) }
    ensures fault { IfErr result (λ refusal. IfFault refusal (IsFaultOf lexer.entry)) }
    ensures remaining { IsRemaining lexer.entry }
{
    let source = lexer.source();
    match parse_untold(lexer) {
        Ok(defs) => Ok(defs),
        Err(refusal) => Err(source.tell(refusal)),
    }
}

/// The same, where a parse error says what was expected and what stands there.
fn parse_untold(lexer: Lexer<'_>) -> Result<Vec<Def>, Refusal<Error>>
    ensures spelt { IfOk result (λ defs. IsSpelt lexer.entry defs.items) }
    ensures fault { IfErr result (λ refusal. IfFault refusal (IsFaultOf lexer.entry)) }
    ensures remaining { IsRemaining lexer.entry }
{
    Parser::new(lexer).parse_defs()
}

/// The same definitions, with each position `Pos::default()`; a refusal is that of `parse`.
pub fn parse_without_pos(lexer: Lexer<'_>) -> Result<Vec<Def>, Refusal<Error>>
    ensures spelt { IfOk result (λ defs. IsSpeltWithoutPos lexer.entry defs.items) }
    ensures fault { IfErr result (IfKind parse_error (FaultAt lexer.entry)) }
    ensures too_deep { IfErr result (IfKind size_error (DeepAt lexer.entry)) }
    ensures kinds { IfErr result (IsOfKinds parse_error size_error) }
    ensures refused { IfErr result (RefusalAt (IsIn lexer.entry.source)) }
{
    let alloc = lexer.allocator();
    let placed = parse(lexer)?;
    let mut defs = Vec::new(alloc);
    for def in placed {
        defs.push(def_without_pos(alloc, def)?)?;
    }
    Ok(defs)
}

/// A parser of the tokens of one text.
#[derive(Drop)]
pub struct Parser<'src> {
    lexer: Lexer<'src>,
}

impl<'src> Model for Parser<'src> {
    ghost use Rattle.isle_syntax.specs.Tokens.RemainingTokens.{RemainingTokens};

    ghost Value = { RemainingTokens };

    ghost view = { λ p. p.lexer };
}

impl<'src> Parser<'src> {
    /// A parser of what the lexer hasn't given yet.
    pub fn new(lexer: Lexer<'src>) -> Parser<'src>
        ensures { result ≡ lexer.entry }
    {
        Parser { lexer }
    }
}
