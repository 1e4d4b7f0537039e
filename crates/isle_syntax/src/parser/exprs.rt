//! Expressions read from tokens: literals, constants, variables, calls of terms and `let`s.
ghost use Rattle.std.specs.Prelude.{◌≡◌, map, codes};
ghost use Rattle.isle_syntax.specs.Grammar.TreeGrammar.{bits_of, is_large};
ghost use Rattle.isle_syntax.specs.Inside.Reading.Bindings.{binding_of};
ghost use Rattle.isle_ast.specs.Trees.ExprShape.{expr_of};
ghost use Rattle.isle_ast.specs.Trees.ExprTree.{expr_bool, expr_int, expr_let, expr_prim, expr_term, expr_var};
ghost use Rattle.isle_syntax.specs.Inside.Reading.Parsing.{Gives};
ghost use Rattle.isle_syntax.specs.Inside.Reading.Readers.{read_map, any_symbol, closed, integer, rest_of, says, seq};
ghost use Rattle.isle_syntax.specs.Inside.Reading.TreeReading.{expr, expr_inner, expr_list, expr_trees, inner_expr, let_binding, let_list, let_trees};
ghost use Rattle.isle_syntax.specs.Inside.Reading.DefReading.{constant, identifier};

use crate::kind::Kind;
use crate::parser::Parser;
use isle_ast::Refusal;
use isle_ast::ast::{BoxedExpr, Expr, Exprs, LetDef, LetDefs};
use isle_ast::error::Error;
use isle_ast::pos::Pos;

impl<'src> Parser<'src> {
    /// An expression.
    #[cycle(expr)]
    pub(crate) fn parse_expr(&mut self, depth_left: usize) -> Result<Expr, Refusal<Error>>
        ensures { Gives expr_of self.old self.new result (expr depth_left self.old.left) }
    {
        match self.kind()? {
            Kind::Open => self.parse_expr_list(depth_left),
            Kind::Int => self.parse_expr_int(),
            Kind::True => self.parse_expr_bool(true),
            Kind::False => self.parse_expr_bool(false),
            Kind::Const => self.parse_expr_const(),
            Kind::Wildcard => self.parse_expr_var(),
            Kind::Name => self.parse_expr_var(),
            Kind::End => Err(self.unexpected("an expression")),
            Kind::Close => Err(self.unexpected("an expression")),
            Kind::At => Err(self.unexpected("an expression")),
            Kind::Other => Err(self.unexpected("an expression")),
        }
    }

    /// An integer.
    fn parse_expr_int(&mut self) -> Result<Expr, Refusal<Error>>
        ensures { Gives expr_of self.old self.new result (read_map (λ x. expr_int (bits_of x.1) (is_large x.1) x.0) (integer self.old.left)) }
    {
        let (pos, literal) = self.integer()?;
        let val = literal.bits();
        let big = literal.is_big();
        Ok(Expr::ConstInt { val, big, pos })
    }

    /// The word `true` or `false`.
    fn parse_expr_bool(&mut self, val: bool) -> Result<Expr, Refusal<Error>>
        ensures { Gives expr_of self.old self.new result (read_map (λ x. expr_bool val x.1) (any_symbol self.old.left)) }
    {
        let name = self.symbol("an expression")?;
        Ok(Expr::ConstBool { val, pos: name.1 })
    }

    /// A constant.
    fn parse_expr_const(&mut self) -> Result<Expr, Refusal<Error>>
        ensures { Gives expr_of self.old self.new result (read_map (λ x. expr_prim x x.1) (constant self.old.left)) }
    {
        let val = self.constant()?;
        let pos = val.1;
        Ok(Expr::ConstPrim { val, pos })
    }

    /// A variable.
    fn parse_expr_var(&mut self) -> Result<Expr, Refusal<Error>>
        ensures { Gives expr_of self.old self.new result (read_map (λ x. expr_var x x.1) (any_symbol self.old.left)) }
    {
        let name = self.symbol("an expression")?;
        let pos = name.1;
        Ok(Expr::Var { name, pos })
    }

    /// An expression in parentheses: a term and its arguments, or a `let`.
    #[cycle(expr)]
    pub(crate) fn parse_expr_list(&mut self, depth_left: usize) -> Result<Expr, Refusal<Error>>
        ensures { Gives expr_of self.old self.new result (expr_list depth_left self.old.left) }
    {
        let pos = self.open(depth_left)?;
        self.parse_expr_inner(pos, depth_left - 1)
    }

    /// What stands behind the opening parenthesis that stands at `pos`, and the closing one.
    #[cycle(expr)]
    pub(crate) fn parse_expr_inner(
        &mut self,
        pos: Pos,
        depth_left: usize,
    ) -> Result<Expr, Refusal<Error>>
        ensures { Gives expr_of self.old self.new result (read_map (inner_expr pos) (expr_inner depth_left self.old.left)) }
    {
        if self.is_word("let")? {
            self.parse_let(pos, depth_left)
        } else {
            self.parse_call(pos, depth_left)
        }
    }

    /// A term and its arguments.
    #[cycle(expr)]
    fn parse_call(&mut self, pos: Pos, depth_left: usize) -> Result<Expr, Refusal<Error>>
        ensures { Gives expr_of self.old self.new result
            (read_map (λ x. expr_term x.0 (expr_trees x.1) pos) (seq identifier (rest_of (expr depth_left)) self.old.left)) }
    {
        let sym = self.ident("a term's name")?;
        let args = self.parse_exprs(depth_left)?;
        let args = Exprs::new(args);
        Ok(Expr::Term { sym, args, pos })
    }

    /// The bindings and the body of a `let`.
    #[cycle(expr)]
    fn parse_let(&mut self, pos: Pos, depth_left: usize) -> Result<Expr, Refusal<Error>>
        ensures { Gives expr_of self.old self.new result
            (read_map (λ x. expr_let (let_trees x.1.0.1) x.1.1.0 pos)
            (seq (says (codes "let")) (seq (let_list depth_left) (seq (expr depth_left) closed)) self.old.left)) }
    {
        let _word = self.word("let")?;
        let defs = self.parse_let_defs(depth_left)?;
        let inner = self.parse_expr_closed(depth_left)?;
        let defs = LetDefs::new(defs);
        let body = BoxedExpr::new(self.allocator(), inner)?;
        Ok(Expr::Let { defs, body, pos })
    }

    /// An expression and the closing parenthesis behind it.
    #[cycle(expr)]
    pub(crate) fn parse_expr_closed(&mut self, depth_left: usize) -> Result<Expr, Refusal<Error>>
        ensures { Gives (λ e. (expr_of e, tt)) self.old self.new result (seq (expr depth_left) closed self.old.left) }
    {
        let inner = self.parse_expr(depth_left)?;
        self.close()?;
        Ok(inner)
    }

    /// The bindings of a `let`, in parentheses.
    #[cycle(expr)]
    fn parse_let_defs(&mut self, depth_left: usize) -> Result<Vec<LetDef>, Refusal<Error>>
        ensures { Gives (λ v. map binding_of v.items) self.old self.new result (read_map (λ x. x.1) (let_list depth_left self.old.left)) }
    {
        let _pos = self.open(depth_left)?;
        self.parse_bindings(depth_left - 1)
    }

    /// The bindings up to the closing parenthesis.
    #[cycle(expr)]
    fn parse_bindings(&mut self, depth_left: usize) -> Result<Vec<LetDef>, Refusal<Error>>
        ensures { Gives (λ v. map binding_of v.items) self.old self.new result (rest_of (let_binding depth_left) self.old.left) }
    {
        let mut defs = Vec::new(self.allocator());
        'all: while !self.take_close()? {
            defs.push(self.parse_let_def(depth_left)?)?;
        }
        Ok(defs)
    }

    /// A variable, its type and its value, in parentheses.
    #[cycle(expr)]
    fn parse_let_def(&mut self, depth_left: usize) -> Result<LetDef, Refusal<Error>>
        ensures { Gives binding_of self.old self.new result (let_binding depth_left self.old.left) }
    {
        let pos = self.open(depth_left)?;
        let var = self.ident("a variable's name")?;
        let ty = self.ident("a type's name")?;
        let val = self.parse_expr_closed(depth_left - 1)?;
        Ok(LetDef { var, ty, val, pos })
    }

    /// The expressions up to the closing parenthesis.
    #[cycle(expr)]
    fn parse_exprs(&mut self, depth_left: usize) -> Result<Vec<Expr>, Refusal<Error>>
        ensures { Gives (λ v. map expr_of v.items) self.old self.new result (rest_of (expr depth_left) self.old.left) }
    {
        let mut exprs = Vec::new(self.allocator());
        'all: while !self.take_close()? {
            exprs.push(self.parse_expr(depth_left)?)?;
        }
        Ok(exprs)
    }
}
