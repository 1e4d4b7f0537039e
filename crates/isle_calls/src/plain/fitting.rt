//! Patterns that fit values.
ghost use Rattle.std.specs.Prelude.{◌≡◌, ◌↔◌, ℕ, Some, IfOk, IsTrue, option_copied, if◌then◌else◌};
ghost use Rattle.isle_types.specs.TypeTables.{name_at};
ghost use Rattle.isle_rules.specs.TypedRules.{typed_bind, typed_term};
ghost use Rattle.isle_calls.specs.declared.plain.fitting.Fitted.TheVariants.{Fits, Leaves};
ghost use Rattle.isle_calls.specs.declared.store.Stored.TheVariants.{Bool, Int, Const, Variant, Struct};
ghost use Rattle.isle_calls.specs.Inside.Plain.Fitting.{AreFieldsOf, TellsFields};
ghost use Rattle.isle_program.specs.Programs.{types_of};
ghost use Rattle.isle_calls.specs.Stores.Values.{Extends};
ghost use Rattle.isle_calls.specs.Calls.Answers.{answers_in};
ghost use Rattle.isle_calls.specs.Inside.Plain.Fitting.{shown_in, all_shown_in, FitTold, FitAllTold, FitEachTold, OpensInto};

use crate::host::{Told, ask_extractor};
use crate::plain::variables::Variables;
use crate::store::{Store, Stored};
use isle_ast::Seq;
use isle_program::Program;
use isle_rules::{Pattern, TermKind};
use isle_types::{Sym, TermId, TypeId, VarId, VariantId};
use isle_values::{Value, World};
use std::alloc::{AllocError, Global};

/// Whether a pattern fits a value, or that it met a call whose answer isn't allowed.
#[derive(Drop)]
pub enum Fitted {
    Fits,
    Leaves,
    IllTyped(TermId, Vec<Value>),
}

/// A program and a world that answers its extractors.
#[derive(Drop)]
pub struct Fitting<'a, W> {
    pub alloc: Global,
    pub program: &'a Program,
    pub world: &'a W,
}

impl<'a, W: World> Fitting<'a, W> {
    /// Reads a pattern on a value; the variables that it binds are given their values.
    #[cycle(fit)]
    pub fn fit(
        &self,
        store: &mut Store,
        variables: &mut Variables,
        pattern: &Pattern,
        number: usize,
    ) -> Result<Fitted, AllocError>
        ensures fitted { IfOk result (λ fitted. FitTold self.now.program.now
            (answers_in self.now.program.now (W.constructs self.now.world.now) (W.extracts self.now.world.now))
            store.old store.new variables.old variables.new number fitted (shown_in self.now.program.now pattern.now)) }
        ensures kept { Extends store.old store.new }
    {
        match pattern {
            Pattern::Wildcard(_) => Ok(Fitted::Fits),
            Pattern::BindPattern(_, var, below) => {
                self.bind(store, variables, *var, below.get(), number)
            }
            Pattern::Var(_, var) => Ok(if_fits(store.is_same(variables.get(*var), number))),
            Pattern::ConstBool(_, val) => Ok(if_fits(is_bool(store.get(number), *val))),
            Pattern::ConstInt(_, val) => Ok(if_fits(is_int(store.get(number), *val))),
            Pattern::ConstPrim(_, name) => Ok(if_fits(self.is_const(store.get(number), *name))),
            Pattern::Term(ty, term, args) => {
                self.open(store, variables, *ty, *term, args.as_slice(), number)
            }
            Pattern::And(_, below) => self.fit_each(store, variables, below.as_slice(), number),
        }
    }

    /// Reads a pattern whose value is bound where it fits.
    #[cycle(fit)]
    fn bind(
        &self,
        store: &mut Store,
        variables: &mut Variables,
        var: VarId,
        below: &Pattern,
        number: usize,
    ) -> Result<Fitted, AllocError>
        ensures fitted { IfOk result (λ fitted. (ty : ℕ) → FitTold self.now.program.now
            (answers_in self.now.program.now (W.constructs self.now.world.now) (W.extracts self.now.world.now))
            store.old store.new variables.old variables.new number fitted (typed_bind ty var.0 (shown_in self.now.program.now below.now))) }
        ensures kept { Extends store.old store.new }
    {
        match self.fit(store, variables, below, number)? {
            Fitted::Fits => {
                variables.set(var, number)?;
                Ok(Fitted::Fits)
            }
            Fitted::Leaves => Ok(Fitted::Leaves),
            Fitted::IllTyped(term, args) => Ok(Fitted::IllTyped(term, args)),
        }
    }

    /// Reads a term's pattern: a variant or struct is opened, an extractor is called.
    #[cycle(fit)]
    fn open(
        &self,
        store: &mut Store,
        variables: &mut Variables,
        ty: TypeId,
        term: TermId,
        args: &[Pattern],
        number: usize,
    ) -> Result<Fitted, AllocError>
        ensures fitted { IfOk result (λ fitted. FitTold self.now.program.now
            (answers_in self.now.program.now (W.constructs self.now.world.now) (W.extracts self.now.world.now))
            store.old store.new variables.old variables.new number fitted (typed_term ty.0 term.0 (all_shown_in self.now.program.now args.now))) }
        ensures kept { Extends store.old store.new }
    {
        match self.opened(store, ty, term, number)? {
            Told::Gives(numbers) => self.fit_all(store, variables, args, numbers.as_slice()),
            Told::Missing => Ok(Fitted::Leaves),
            Told::IllTyped(term, args) => Ok(Fitted::IllTyped(term, args)),
        }
    }

    /// What a term's pattern opens a value into.
    fn opened(
        &self,
        store: &mut Store,
        ty: TypeId,
        term: TermId,
        number: usize,
    ) -> Result<Told<Vec<usize>>, AllocError>
        ensures opened { IfOk result (λ told. OpensInto self.now.program.now
            (answers_in self.now.program.now (W.constructs self.now.world.now) (W.extracts self.now.world.now))
            store.old store.new ty.0 term.0 number told) }
        ensures kept { Extends store.old store.new }
    {
        match self.program.terms().get_term(term) {
            Some(known) => match &known.kind {
                TermKind::EnumVariant { variant } => fields_told(
                    self.alloc,
                    variant_fields(store.get(number), ty, *variant),
                ),
                TermKind::Struct => fields_told(self.alloc, struct_fields(store.get(number), ty)),
                TermKind::Decl { .. } => {
                    ask_extractor(self.alloc, self.program, self.world, store, term, number)
                }
            },
            None => ask_extractor(self.alloc, self.program, self.world, store, term, number),
        }
    }

    /// Reads each pattern on the value at its place.
    #[cycle(fit)]
    pub fn fit_all(
        &self,
        store: &mut Store,
        variables: &mut Variables,
        patterns: &[Pattern],
        numbers: &[usize],
    ) -> Result<Fitted, AllocError>
        ensures fitted { IfOk result (λ fitted. FitAllTold self.now.program.now
            (answers_in self.now.program.now (W.constructs self.now.world.now) (W.extracts self.now.world.now))
            store.old store.new variables.old variables.new numbers.now fitted (all_shown_in self.now.program.now patterns.now)) }
        ensures kept { Extends store.old store.new }
    {
        for i in 0..patterns.len() {
            let Some(number) = numbers.get(i) else {
                return Ok(Fitted::Leaves);
            };
            match self.fit(store, variables, &patterns[i], *number)? {
                Fitted::Fits => {}
                Fitted::Leaves => return Ok(Fitted::Leaves),
                Fitted::IllTyped(term, args) => return Ok(Fitted::IllTyped(term, args)),
            }
        }
        Ok(if_fits(patterns.len() == numbers.len()))
    }

    /// Reads each pattern on one value.
    #[cycle(fit)]
    fn fit_each(
        &self,
        store: &mut Store,
        variables: &mut Variables,
        patterns: &[Pattern],
        number: usize,
    ) -> Result<Fitted, AllocError>
        ensures fitted { IfOk result (λ fitted. FitEachTold self.now.program.now
            (answers_in self.now.program.now (W.constructs self.now.world.now) (W.extracts self.now.world.now))
            store.old store.new variables.old variables.new number fitted (all_shown_in self.now.program.now patterns.now)) }
        ensures kept { Extends store.old store.new }
    {
        for pattern in patterns {
            match self.fit(store, variables, pattern, number)? {
                Fitted::Fits => {}
                Fitted::Leaves => return Ok(Fitted::Leaves),
                Fitted::IllTyped(term, args) => return Ok(Fitted::IllTyped(term, args)),
            }
        }
        Ok(Fitted::Fits)
    }

    /// Whether a value is the constant of a name.
    fn is_const(&self, stored: Option<&Stored>, name: Sym) -> bool
        ensures { IsTrue result ↔ (option_copied stored.entry ≡ Some (Const (name_at (types_of self.now.program.now).names name))) }
    {
        match stored {
            Some(Stored::Const(found)) => found.as_str() == self.program.types().sym_name(name),
            _ => false,
        }
    }
}

/// A pattern fits or not.
fn if_fits(fits: bool) -> Fitted
    ensures { result ≡ (if fits then Fits else Leaves) }
{
    if fits { Fitted::Fits } else { Fitted::Leaves }
}

/// Whether a value is this truth value.
fn is_bool(stored: Option<&Stored>, val: bool) -> bool
    ensures { IsTrue result ↔ (option_copied stored.entry ≡ Some (Bool val)) }
{
    match stored {
        Some(Stored::Bool(b)) => *b == val,
        _ => false,
    }
}

/// Whether a value is this integer.
fn is_int(stored: Option<&Stored>, val: i128) -> bool
    ensures { IsTrue result ↔ (option_copied stored.entry ≡ Some (Int val)) }
{
    match stored {
        Some(Stored::Int(n)) => *n == val,
        _ => false,
    }
}

/// The fields of a value of a variant.
fn variant_fields(stored: Option<&Stored>, ty: TypeId, variant: VariantId) -> Option<&Seq<usize>>
    ensures { AreFieldsOf (option_copied stored.entry) (Variant ty variant) (option_copied result) }
{
    match stored {
        Some(Stored::Variant(of, found, fields)) if *of == ty && *found == variant => Some(fields),
        _ => None,
    }
}

/// The fields of a value of a struct.
fn struct_fields(stored: Option<&Stored>, ty: TypeId) -> Option<&Seq<usize>>
    ensures { AreFieldsOf (option_copied stored.entry) (Struct ty) (option_copied result) }
{
    match stored {
        Some(Stored::Struct(of, fields)) if *of == ty => Some(fields),
        _ => None,
    }
}

/// Fields, if there are some.
fn fields_told(alloc: Global, fields: Option<&Seq<usize>>) -> Result<Told<Vec<usize>>, AllocError>
    ensures { IfOk result (λ told. TellsFields (option_copied fields.entry) told) }
{
    match fields {
        Some(fields) => Ok(Told::Gives(Vec::from_slice(alloc, fields.as_slice())?)),
        None => Ok(Told::Missing),
    }
}
