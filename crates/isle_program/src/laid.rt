//! Rules laid out: expressions as parts, each behind those that it is made of.
ghost use Rattle.std.specs.Prelude.{◌≡◌, ◌<◌, length, IfOk};
ghost use Rattle.std.specs.List.{AllZip};
ghost use Rattle.isle_types.specs.TypeTables.{TypeTables};
ghost use Rattle.isle_program.specs.Plain.LaidOut.Words.{made_of, IsLaidOut};
ghost use Rattle.isle_program.specs.Inside.Plain.LaidOut.Expressions.{stands_for, StandForTheSame, Binds, Restores, IsPut, LaysExpr, LaysExprs, LaysBindings, LaysTerm};
ghost use Rattle.isle_program.specs.Inside.Plain.LaidOut.Expressions.{LaysCall};
ghost use Rattle.isle_program.specs.Plain.LaidOut.Rules.{IsConditionLaidOut, IsRuleLaidOut};

use isle_rules::{Expr, IfLet, Rule, TermEnv, TermKind};
use isle_syntax::{Boxed, Seq};
use isle_types::{Sym, TermId, TypeId, VarId, VariantId};
use std::alloc::{AllocError, Global};

/// A part of an expression: a leaf, or what is made of earlier parts, by their numbers.
#[derive(Drop)]
pub enum Part {
    Var(VarId),
    Bool(bool),
    Int(i128),
    Const(Sym),
    Variant(TypeId, VariantId, Seq<usize>),
    Struct(TypeId, Seq<usize>),
    /// A call of a pure term.
    Call(TermId, Seq<usize>),
    /// A call of a term that isn't pure, with its place among such calls of the expression.
    Impure(TermId, Seq<usize>, usize),
}

impl Part {
    /// The numbers of the parts that it is made of.
    pub fn made_of(&self) -> &[usize]
        ensures { result.now ≡ made_of self.now }
    {
        match self {
            Part::Variant(_, _, args)
            | Part::Struct(_, args)
            | Part::Call(_, args)
            | Part::Impure(_, args, _) => args.as_slice(),
            Part::Var(_) | Part::Bool(_) | Part::Int(_) | Part::Const(_) => &[],
        }
    }
}

/// An expression laid out.
#[derive(Drop)]
pub struct Laid {
    pub parts: Vec<Part>,
    /// The parts that are impure calls, in order.
    pub calls: Vec<usize>,
    /// The part that is the whole.
    pub result: usize,
}

/// The expressions of a rule laid out.
#[derive(Drop)]
pub struct LaidRule {
    pub iflets: Vec<Laid>,
    pub right: Laid,
}

impl LaidRule {
    /// A rule laid out.
    pub fn new(alloc: Global, termenv: &TermEnv, rule: &Rule) -> Result<LaidRule, AllocError>
        ensures { IfOk result (λ made. (tyenv : TypeTables) → IsRuleLaidOut tyenv termenv.now rule.now made) }
    {
        Ok(LaidRule {
            iflets: lay_iflets(alloc, termenv, rule.iflets.as_slice())?,
            right: Laid::new(alloc, termenv, &rule.rhs)?,
        })
    }
}

/// The expressions of conditions laid out.
fn lay_iflets(alloc: Global, termenv: &TermEnv, iflets: &[IfLet]) -> Result<Vec<Laid>, AllocError>
    ensures { IfOk result (λ made. (tyenv : TypeTables) → AllZip (IsConditionLaidOut tyenv termenv.now) iflets.now made.items) }
{
    let mut laid = Vec::new(alloc);
    for iflet in iflets {
        laid.push(Laid::new(alloc, termenv, &iflet.rhs)?)?;
    }
    Ok(laid)
}

impl Laid {
    /// An expression laid out.
    pub fn new(alloc: Global, termenv: &TermEnv, expr: &Expr) -> Result<Laid, AllocError>
        ensures { IfOk result (λ laid. (tyenv : TypeTables) → IsLaidOut tyenv termenv.now expr.now laid) }
    {
        let mut layout = Layout {
            alloc,
            parts: Vec::new(alloc),
            calls: Vec::new(alloc),
            bound: Vec::new(alloc),
        };
        let result = layout.lay(termenv, expr)?;
        Ok(Laid {
            parts: layout.parts,
            calls: layout.calls,
            result,
        })
    }
}

/// The parts so far, and which part each variable of a `let` around the current place stands for.
#[derive(Drop)]
struct Layout {
    alloc: Global,
    parts: Vec<Part>,
    calls: Vec<usize>,
    bound: Vec<Option<usize>>,
}

impl Layout {
    /// Lays an expression out behind the parts so far.
    #[cycle(lay)]
    fn lay(&mut self, termenv: &TermEnv, expr: &Expr) -> Result<usize, AllocError>
        ensures same { IfOk result (λ _. StandForTheSame self.old self.new) }
        ensures laid { IfOk result (λ number. LaysExpr termenv.now expr.now self.old self.new number) }
    {
        match expr {
            Expr::Var(_, var) => match self.part_of(*var) {
                Some(number) => Ok(number),
                None => self.put(Part::Var(*var)),
            },
            Expr::ConstBool(_, val) => self.put(Part::Bool(*val)),
            Expr::ConstInt(_, val) => self.put(Part::Int(*val)),
            Expr::ConstPrim(_, name) => self.put(Part::Const(*name)),
            Expr::Term(ty, term, args) => {
                let numbers = self.lay_all(termenv, args.as_slice())?;
                self.apply(termenv, *ty, *term, Seq::new(numbers))
            }
            Expr::Let {
                ty: _,
                bindings,
                body,
            } => {
                let hidden = self.enter(termenv, bindings.as_slice())?;
                let number = self.lay(termenv, body.get())?;
                self.leave(hidden)?;
                Ok(number)
            }
        }
    }

    /// Lays expressions out, in order.
    #[cycle(lay)]
    fn lay_all(&mut self, termenv: &TermEnv, exprs: &[Expr]) -> Result<Vec<usize>, AllocError>
        ensures same { IfOk result (λ _. StandForTheSame self.old self.new) }
        ensures laid { IfOk result (λ numbers. LaysExprs termenv.now exprs.now self.old self.new numbers.items) }
    {
        let mut numbers = Vec::new(self.alloc);
        for expr in exprs {
            let number = self.lay(termenv, expr)?;
            numbers.push(number)?;
        }
        Ok(numbers)
    }

    /// Lays the values of a `let` out and binds its variables to them, each after its value; tells what they stood for before.
    #[cycle(lay)]
    fn enter(
        &mut self,
        termenv: &TermEnv,
        bindings: &[(VarId, TypeId, Boxed<Expr>)],
    ) -> Result<Vec<(VarId, Option<usize>)>, AllocError>
        ensures before { IfOk result (λ hidden. Restores hidden.items self.new self.old) }
        ensures laid { IfOk result (λ _. LaysBindings termenv.now bindings.now self.old self.new) }
    {
        let mut hidden = Vec::new(self.alloc);
        for binding in bindings {
            let number = self.lay(termenv, binding.2.get())?;
            let before = self.part_of(binding.0);
            self.bind(binding.0, Some(number))?;
            hidden.push((binding.0, before))?;
        }
        Ok(hidden)
    }

    /// Lets variables stand for what they stood for before, the last first.
    fn leave(&mut self, mut hidden: Vec<(VarId, Option<usize>)>) -> Result<(), AllocError>
        ensures parts { self.new.parts.items ≡ self.old.parts.items }
        ensures calls { self.new.calls.items ≡ self.old.calls.items }
        ensures before { IfOk result (λ _. Restores hidden.items self.old self.new) }
    {
        while let Some((var, before)) = hidden.pop() {
            self.bind(var, before)?;
        }
        Ok(())
    }

    /// The part that a variable of a `let` stands for.
    fn part_of(&self, var: VarId) -> Option<usize>
        ensures { result ≡ stands_for self.now.bound.items var.0 }
    {
        match self.bound.get(var.index()) {
            Some(part) => *part,
            None => None,
        }
    }

    /// Lets a variable stand for a part, or for none.
    fn bind(&mut self, var: VarId, part: Option<usize>) -> Result<(), AllocError>
        ensures parts { self.new.parts.items ≡ self.old.parts.items }
        ensures calls { self.new.calls.items ≡ self.old.calls.items }
        ensures bound { IfOk result (λ _. Binds var.0 part self.old self.new) }
    {
        self.make_room(var.index())?;
        if let Some(slot) = self.bound.get_mut(var.index()) {
            *slot = part;
        }
        Ok(())
    }

    /// Sees to it that a variable has a slot.
    fn make_room(&mut self, index: usize) -> Result<(), AllocError>
        ensures parts { self.new.parts.items ≡ self.old.parts.items }
        ensures calls { self.new.calls.items ≡ self.old.calls.items }
        ensures same { StandForTheSame self.old self.new }
        ensures room { IfOk result (λ _. index < length self.new.bound.items) }
    {
        while self.bound.len() <= index {
            self.bound.push(None)?;
        }
        Ok(())
    }

    /// A term on parts.
    fn apply(
        &mut self,
        termenv: &TermEnv,
        ty: TypeId,
        term: TermId,
        args: Seq<usize>,
    ) -> Result<usize, AllocError>
        ensures bound { self.new.bound.items ≡ self.old.bound.items }
        ensures laid { IfOk result (λ number. LaysTerm termenv.now ty term args self.old self.new number) }
    {
        match termenv.get_term(term) {
            Some(known) => match &known.kind {
                TermKind::EnumVariant { variant } => self.put(Part::Variant(ty, *variant, args)),
                TermKind::Struct => self.put(Part::Struct(ty, args)),
                TermKind::Decl { flags, .. } => self.call(flags.pure, term, args),
            },
            None => self.put(Part::Call(term, args)),
        }
    }

    /// A call on parts.
    fn call(&mut self, pure: bool, term: TermId, args: Seq<usize>) -> Result<usize, AllocError>
        ensures bound { self.new.bound.items ≡ self.old.bound.items }
        ensures laid { IfOk result (λ number. LaysCall pure term args self.old self.new number) }
    {
        if pure {
            return self.put(Part::Call(term, args));
        }
        let place = self.calls.len();
        let number = self.put(Part::Impure(term, args, place))?;
        self.calls.push(number)?;
        Ok(number)
    }

    /// A part behind those so far.
    fn put(&mut self, part: Part) -> Result<usize, AllocError>
        ensures bound { self.new.bound.items ≡ self.old.bound.items }
        ensures put { IfOk result (λ number. IsPut part self.old self.new number) }
    {
        let number = self.parts.len();
        self.parts.push(part)?;
        Ok(number)
    }
}
