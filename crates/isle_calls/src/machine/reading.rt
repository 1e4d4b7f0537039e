//! What sites hold that call nothing.
ghost use Rattle.std.specs.Prelude.{◌≡◌, ℕ, List, IfOk, Some, true, false, slice_get};
ghost use Rattle.isle_types.specs.declared.ids.Sym.{Sym};
ghost use Rattle.isle_meaning.specs.Got.{Got, gives};
ghost use Rattle.isle_meaning.specs.Held.{Held, held, plain, held_value, output_of, variant_field, struct_field};
ghost use Rattle.isle_meaning.specs.Machine.Runs.{Env, known, values_at, read, made_of, is_computed};
ghost use Rattle.isle_meaning.specs.Values.{Value as MeantValue, Values, ask, nth};
ghost use Rattle.isle_blocks.specs.Building.Naming.{name_by};
ghost use Rattle.isle_blocks.specs.Rows.{row_of, numbers_of};
ghost use Rattle.isle_calls.specs.declared.store.Stored.{Stored as StoredValue};
ghost use Rattle.isle_calls.specs.Inside.Blocks.Frames.{rows_in};
ghost use Rattle.isle_calls.specs.Inside.Blocks.Holdings.{Holds, StandFor, TellsHeld, TellsNumber, TellsNumbers};
ghost use Rattle.isle_calls.specs.Inside.Blocks.Reading.{IsAround, IsNodeOf};
ghost use Rattle.isle_program.specs.Programs.{types_of};
ghost use Rattle.isle_calls.specs.Stores.Values.{Extends, Stands, StandEach};

use super::frame::Frame;
use super::holding::{Content, Holding};
use super::naming::name_of;
use crate::store::{Store, Stored};
use isle_ast::Seq;
use isle_blocks::{Binding, BindingId, TupleIndex};
use isle_program::Program;
use isle_types::VariantId;
use std::alloc::{AllocError, Global};

/// A program and the values that were met.
#[derive(Drop)]
pub struct Machine<'a> {
    pub alloc: Global,
    pub program: &'a Program,
    pub store: Store,
}

/// Whether a site isn't bound, but made where it is used: an integer, a named constant, an argument, an output, data without fields.
pub(super) fn is_computed(binding: &Binding) -> bool
    ensures { (name : Sym → List ℕ) → result ≡ is_computed (row_of name binding.now) }
{
    match binding {
        Binding::ConstInt { .. } => true,
        Binding::ConstPrim { .. } => true,
        Binding::Argument { .. } => true,
        Binding::MakeVariant { fields, .. } => fields.as_slice().is_empty(),
        Binding::MakeStruct { fields, .. } => fields.as_slice().is_empty(),
        Binding::MatchTuple { .. } => true,
        _ => false,
    }
}

/// What a site was bound to.
fn bound(frame: &Frame<'_>, site: BindingId) -> Result<Option<Holding>, AllocError>
    ensures { IfOk result (λ held. (stored : List StoredValue) (env : Env) → StandFor stored frame.now.bound env
        → TellsHeld stored held (known (env site.0))) }
{
    match frame.bound.get(site.index()) {
        Some(held) => Ok(Some(held.clone()?)),
        None => Ok(None),
    }
}

/// The value whose number is at a place.
fn at_place(numbers: &[usize], place: TupleIndex) -> Option<Holding>
    ensures { (stored : List StoredValue) (vs : Values) → StandEach stored vs numbers.now → TellsHeld stored result (held (nth vs place.0)) }
{
    match numbers.get(place.index()) {
        Some(number) => Some(Holding::value(*number)),
        None => None,
    }
}

/// An output, if outputs are held.
fn output_in(held: &Holding, field: TupleIndex) -> Option<Holding>
    ensures { (stored : List StoredValue) (h : Held) → Holds stored held.now h → TellsHeld stored result (output_of field.0 h) }
{
    match (held.options, &held.content) {
        (0, Content::Outputs(numbers)) => at_place(numbers.as_slice(), field),
        _ => None,
    }
}

/// An output of an extractor that a site was bound to.
fn output(frame: &Frame<'_>, site: BindingId, field: TupleIndex) -> Option<Holding>
    ensures { (stored : List StoredValue) (env : Env) → StandFor stored frame.now.bound env
        → TellsHeld stored result (ask (output_of field.0) (known (env site.0))) }
{
    match frame.bound.get(site.index()) {
        Some(held) => output_in(held, field),
        None => None,
    }
}

/// A field of a value, if it is such a variant.
fn field_of_variant(node: &Stored, variant: VariantId, field: TupleIndex) -> Option<Holding>
    ensures { (stored : List StoredValue) (v : MeantValue) (n : ℕ) → slice_get stored n ≡ Some node.now → Stands stored v n
        → TellsHeld stored result (variant_field variant.0 field.0 v) }
{
    match node {
        Stored::Variant(_ty, of, fields) if *of == variant => at_place(fields.as_slice(), field),
        _ => None,
    }
}

/// A field of a value, if it is a struct.
fn field_of_struct(node: &Stored, field: TupleIndex) -> Option<Holding>
    ensures { (stored : List StoredValue) (v : MeantValue) (n : ℕ) → slice_get stored n ≡ Some node.now → Stands stored v n
        → TellsHeld stored result (struct_field field.0 v) }
{
    match node {
        Stored::Struct(_ty, fields) => at_place(fields.as_slice(), field),
        _ => None,
    }
}

impl<'a> Machine<'a> {
    /// What a site holds, if it holds something.
    pub fn read(
        &mut self,
        frame: &Frame<'a>,
        site: BindingId,
    ) -> Result<Option<Holding>, AllocError>
        ensures told { IfOk result (λ held. (args : Values) (env : Env) → IsAround self.old.store frame.now args env
            → TellsHeld self.new.store held (read (rows_in self.old.program.now frame.now.sites.now) args env site.0)) }
        ensures kept { Extends self.old.store self.new.store }
        ensures program { self.new.program.now ≡ self.old.program.now }
    {
        match frame.sites.get(site.index()) {
            Some(binding) => {
                if is_computed(binding) {
                    self.compute(frame, binding)
                } else {
                    bound(frame, site)
                }
            }
            None => Ok(None),
        }
    }

    /// The number of the value that a site holds, if it holds one.
    pub fn number(
        &mut self,
        frame: &Frame<'a>,
        site: BindingId,
    ) -> Result<Option<usize>, AllocError>
        ensures told { IfOk result (λ number. (args : Values) (env : Env) → IsAround self.old.store frame.now args env
            → TellsNumber self.new.store number (plain (read (rows_in self.old.program.now frame.now.sites.now) args env site.0))) }
        ensures kept { Extends self.old.store self.new.store }
        ensures program { self.new.program.now ≡ self.old.program.now }
    {
        match self.read(frame, site)? {
            Some(held) => Ok(held.number()),
            None => Ok(None),
        }
    }

    /// The numbers of the values that sites hold, if each holds one.
    pub fn numbers(
        &mut self,
        frame: &Frame<'a>,
        sites: &[BindingId],
    ) -> Result<Option<Vec<usize>>, AllocError>
        ensures told { IfOk result (λ numbers. (args : Values) (env : Env) → IsAround self.old.store frame.now args env
            → TellsNumbers self.new.store numbers (values_at (read (rows_in self.old.program.now frame.now.sites.now) args env)
            (numbers_of sites.now))) }
        ensures kept { Extends self.old.store self.new.store }
        ensures program { self.new.program.now ≡ self.old.program.now }
    {
        let mut numbers = Vec::with_capacity(self.alloc, sites.len())?;
        for site in sites {
            match self.number(frame, *site)? {
                Some(number) => numbers.push(number)?,
                None => return Ok(None),
            }
        }
        Ok(Some(numbers))
    }

    /// What a site is made of that isn't bound.
    pub(super) fn compute(
        &mut self,
        frame: &Frame<'a>,
        binding: &Binding,
    ) -> Result<Option<Holding>, AllocError>
        ensures told { IfOk result (λ held. (name : Sym → List ℕ) → name ≡ name_by (types_of self.old.program.now).names
            → is_computed (row_of name binding.now) ≡ true → (args : Values) (env : Env) → IsAround self.old.store frame.now args env
            → TellsHeld self.new.store held (made_of args (λ j. known (env j)) (row_of name binding.now))) }
        ensures kept { Extends self.old.store self.new.store }
        ensures program { self.new.program.now ≡ self.old.program.now }
    {
        match binding {
            Binding::ConstInt { val, .. } => self.value(Stored::Int(*val)),
            Binding::ConstPrim { val } => {
                let name = name_of(self.alloc, self.program.types(), *val)?;
                self.value(Stored::Const(name))
            }
            Binding::Argument { index } => Ok(at_place(frame.args.as_slice(), *index)),
            Binding::MakeVariant { ty, variant, .. } => {
                let fields = Seq::new(Vec::new(self.alloc));
                self.value(Stored::Variant(*ty, *variant, fields))
            }
            Binding::MakeStruct { ty, .. } => {
                let fields = Seq::new(Vec::new(self.alloc));
                self.value(Stored::Struct(*ty, fields))
            }
            Binding::MatchTuple { source, field } => Ok(output(frame, *source, *field)),
            _ => Ok(None),
        }
    }

    /// What a site that is bound is made of by its parts, if it calls nothing and they give something.
    pub fn made(
        &mut self,
        frame: &Frame<'a>,
        binding: &Binding,
    ) -> Result<Option<Holding>, AllocError>
        ensures told { IfOk result (λ held. (name : Sym → List ℕ) → name ≡ name_by (types_of self.old.program.now).names
            → is_computed (row_of name binding.now) ≡ false → (args : Values) (env : Env) → IsAround self.old.store frame.now args env
            → TellsHeld self.new.store held (made_of args (read (rows_in self.old.program.now frame.now.sites.now) args env)
            (row_of name binding.now))) }
        ensures kept { Extends self.old.store self.new.store }
        ensures program { self.new.program.now ≡ self.old.program.now }
    {
        match binding {
            Binding::ConstBool { val, .. } => self.value(Stored::Bool(*val)),
            Binding::MakeVariant {
                ty,
                variant,
                fields,
            } => match self.numbers(frame, fields.as_slice())? {
                Some(numbers) => self.value(Stored::Variant(*ty, *variant, Seq::new(numbers))),
                None => Ok(None),
            },
            Binding::MakeStruct { ty, fields } => match self.numbers(frame, fields.as_slice())? {
                Some(numbers) => self.value(Stored::Struct(*ty, Seq::new(numbers))),
                None => Ok(None),
            },
            Binding::MatchVariant {
                source,
                variant,
                field,
            } => {
                let number = self.number(frame, *source)?;
                Ok(self.variant_field(number, *variant, *field))
            }
            Binding::ExtractStruct { source, field } => {
                let number = self.number(frame, *source)?;
                Ok(self.struct_field(number, *field))
            }
            Binding::MakeSome { inner } => match self.read(frame, *inner)? {
                Some(held) => Ok(Some(held.in_option()?)),
                None => Ok(None),
            },
            Binding::MatchSome { source } => match self.read(frame, *source)? {
                Some(held) => Ok(held.in_it()),
                None => Ok(None),
            },
            _ => Ok(None),
        }
    }

    /// A value that is put into the store.
    fn value(&mut self, stored: Stored) -> Result<Option<Holding>, AllocError>
        ensures told { IfOk result (λ held. (v : MeantValue) → IsNodeOf self.old.store v stored
            → TellsHeld self.new.store held (gives (held_value v))) }
        ensures kept { Extends self.old.store self.new.store }
        ensures program { self.new.program.now ≡ self.old.program.now }
    {
        let number = self.store.intern(stored)?;
        Ok(Some(Holding::value(number)))
    }

    /// A field of the value of a number, if that is such a variant.
    fn variant_field(
        &self,
        number: Option<usize>,
        variant: VariantId,
        field: TupleIndex,
    ) -> Option<Holding>
        ensures { (g : Got MeantValue) → TellsNumber self.now.store number g
            → TellsHeld self.now.store result (ask (variant_field variant.0 field.0) g) }
    {
        match number {
            Some(number) => match self.store.get(number) {
                Some(node) => field_of_variant(node, variant, field),
                None => None,
            },
            None => None,
        }
    }

    /// A field of the value of a number, if that is a struct.
    fn struct_field(&self, number: Option<usize>, field: TupleIndex) -> Option<Holding>
        ensures { (g : Got MeantValue) → TellsNumber self.now.store number g
            → TellsHeld self.now.store result (ask (struct_field field.0) g) }
    {
        match number {
            Some(number) => match self.store.get(number) {
                Some(node) => field_of_struct(node, field),
                None => None,
            },
            None => None,
        }
    }
}
