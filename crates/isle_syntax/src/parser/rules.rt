//! Rules read from tokens: their names, priorities, patterns, clauses and right sides.
ghost use Rattle.std.specs.Prelude.{◌≡◌, IfOk, IfErr, Some, None, cond};
ghost use Rattle.isle_ast.specs.Trees.ExprShape.{expr_of};
ghost use Rattle.isle_syntax.specs.Grammar.TreeGrammar.{bits_of};
ghost use Rattle.isle_syntax.specs.Inside.Reading.KindOf.{literal_of};
ghost use Rattle.isle_syntax.specs.Inside.Reading.Parsing.{Gives, NoToken, IsKnown, TakesName, TakesPriority};
ghost use Rattle.isle_syntax.specs.Inside.Reading.Readers.{read_map, seq, closed};
ghost use Rattle.isle_syntax.specs.Inside.Reading.TreeReading.{expr, expr_inner, inner_expr};
ghost use Rattle.isle_ast.specs.Trees.PatternTree.{pattern_wildcard};
ghost use Rattle.isle_syntax.specs.Inside.Reading.DefReading.{clause, if_let_read, if_read, is_open_next, is_priority, is_priority_next, rule, rule_body};

use crate::kind::Literal;
use crate::lexer::Token;
use crate::parser::Parser;
use isle_ast::ast::{Expr, Ident, IfLet, Pattern, Rule};
use isle_ast::error::Error;
use isle_ast::pos::Pos;
use isle_ast::{Refusal, Seq};

/// An integer as a priority, where it fits one.
fn priority(literal: Literal) -> Option<i64>
    ensures { result ≡ cond (is_priority (literal_of literal)) (Some (bits_of (literal_of literal))) None }
{
    let Literal::Int(val) = literal else {
        return None;
    };
    if val < i64::MIN as i128 {
        return None;
    }
    if val > i64::MAX as i128 {
        return None;
    }
    Some(val as i64)
}

impl<'src> Parser<'src> {
    /// Takes a rule's name where one stands next.
    fn take_name(&mut self) -> Result<Option<Ident>, Refusal<Error>>
        ensures taken { IfOk result (TakesName self.old self.new) }
        ensures no_token { IfErr result (NoToken self.old self.new) }
    {
        if !self.is_ident()? {
            return Ok(None);
        }
        Ok(Some(self.rule_name()?))
    }

    /// Takes a rule's priority where one stands next.
    fn take_priority(&mut self) -> Result<Option<i64>, Refusal<Error>>
        ensures taken { IfOk result (TakesPriority self.old self.new) }
        ensures no_token { IfErr result (NoToken self.old self.new) }
    {
        if !self.is_priority()? {
            return Ok(None);
        }
        let (_, literal) = self.integer()?;
        Ok(priority(literal))
    }

    /// Whether an integer that fits a priority stands next; a refusal where what stands next is no token.
    fn is_priority(&mut self) -> Result<bool, Refusal<Error>>
        ensures priority { IfOk result (λ same. same ≡ is_priority_next self.old.left) }
        ensures known { IfOk result (λ same. IsKnown self.old self.new) }
        ensures no_token { IfErr result (NoToken self.old self.new) }
    {
        let _kind = self.kind()?;
        match self.lexer.peek() {
            Some((_, Token::Int(val))) => Ok(priority(Literal::Int(*val)).is_some()),
            _ => Ok(false),
        }
    }

    /// Whether an opening parenthesis stands next; a refusal where what stands next is no token.
    fn is_open(&mut self) -> Result<bool, Refusal<Error>>
        ensures open { IfOk result (λ same. same ≡ is_open_next self.old.left) }
        ensures known { IfOk result (λ same. IsKnown self.old self.new) }
        ensures no_token { IfErr result (NoToken self.old self.new) }
    {
        let _kind = self.kind()?;
        Ok(matches!(self.lexer.peek(), Some((_, Token::LParen))))
    }

    /// A clause `if-let` whose parenthesis at `pos` is open.
    fn parse_iflet(&mut self, pos: Pos, depth_left: usize) -> Result<IfLet, Refusal<Error>>
        ensures { Gives (λ x. x) self.old self.new result (read_map (λ x. clause x.1.0 x.1.1.0 pos) (if_let_read depth_left self.old.left)) }
    {
        self.says("if-let")?;
        let pattern = self.parse_pattern(depth_left)?;
        let expr = self.parse_expr_closed(depth_left)?;
        Ok(IfLet { pattern, expr, pos })
    }

    /// A clause `if` whose parenthesis at `pos` is open: its pattern is a wildcard where the word stands.
    fn parse_if(&mut self, pos: Pos, depth_left: usize) -> Result<IfLet, Refusal<Error>>
        ensures { Gives (λ x. x) self.old self.new result
            (read_map (λ x. clause (pattern_wildcard x.0) x.1.0 pos) (if_read depth_left self.old.left)) }
    {
        let word = self.word("if")?;
        let expr = self.parse_expr_closed(depth_left)?;
        let pattern = Pattern::Wildcard { pos: word };
        Ok(IfLet { pattern, expr, pos })
    }

    /// A right side, and the closing parenthesis of the rule.
    fn parse_right_side(&mut self, depth_left: usize) -> Result<Expr, Refusal<Error>>
        ensures { Gives expr_of self.old self.new result (read_map (λ x. x.0) (seq (expr depth_left) closed self.old.left)) }
    {
        let expr = self.parse_expr(depth_left)?;
        self.close()?;
        Ok(expr)
    }

    /// A right side whose parenthesis at `pos` is open, and the closing parenthesis of the rule.
    fn parse_right_side_inner(
        &mut self,
        pos: Pos,
        depth_left: usize,
    ) -> Result<Expr, Refusal<Error>>
        ensures { Gives expr_of self.old self.new result (read_map (λ x. inner_expr pos x.0) (seq (expr_inner depth_left) closed self.old.left)) }
    {
        let expr = self.parse_expr_inner(pos, depth_left)?;
        self.close()?;
        Ok(expr)
    }

    /// The clauses of a rule and its right side, with the closing parenthesis of the rule.
    fn parse_body(&mut self, depth_left: usize) -> Result<(Vec<IfLet>, Expr), Refusal<Error>>
        ensures { Gives (λ x. (x.0.items, expr_of x.1)) self.old self.new result (rule_body depth_left self.old.left) }
    {
        let mut iflets = Vec::new(self.allocator());
        'clauses: loop {
            if !self.is_open()? {
                return Ok((iflets, self.parse_right_side(depth_left)?));
            }
            let pos = self.open(depth_left)?;
            if self.is_word("if-let")? {
                iflets.push(self.parse_iflet(pos, depth_left - 1)?)?;
                continue;
            }
            if !self.is_word("if")? {
                return Ok((iflets, self.parse_right_side_inner(pos, depth_left - 1)?));
            }
            iflets.push(self.parse_if(pos, depth_left - 1)?)?;
        }
    }

    /// What follows the word `rule`.
    pub(crate) fn parse_rule(&mut self, depth_left: usize) -> Result<Rule, Refusal<Error>>
        ensures { Gives (λ x. x) self.old self.new result (rule depth_left self.old.left) }
    {
        let pos = self.pos();
        let name = self.take_name()?;
        let prio = self.take_priority()?;
        let pattern = self.parse_pattern_list(depth_left)?;
        let (mut iflets, expr) = self.parse_body(depth_left)?;
        // a list has room for several clauses, and most rules have one or none
        iflets.shrink_to_fit();
        Ok(Rule {
            pattern,
            iflets: Seq::new(iflets),
            expr,
            pos,
            prio,
            name,
        })
    }
}
