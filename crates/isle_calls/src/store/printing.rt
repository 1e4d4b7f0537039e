//! Values of numbers.
ghost use Rattle.std.specs.Prelude.{◌≡◌, ◌++◌, ◌∷◌, [], ℕ, List, IfOk, Some, reverse, map, length, slice_get, unwrap_or};
ghost use Rattle.isle_rules.specs.Values.{ValueTree, ValueTrees, more_trees, no_trees, value_list};
ghost use Rattle.isle_meaning.specs.GroundValues.{value_of, values_of, IsValueOf, AreValuesOf};
ghost use Rattle.isle_meaning.specs.Values.{Value as ShownValue, Values as ShownValues};
ghost use Rattle.isle_meaning.specs.ValueTypes.{IsOfType, AreOfTypes};
ghost use Rattle.isle_types.specs.TypeEnvs.{type_at};
ghost use Rattle.isle_calls.specs.declared.store.Stored.{Stored as DeclaredStored};
ghost use Rattle.isle_calls.specs.declared.store.printing.Step.TheVariants.{Data};
ghost use Rattle.isle_values.specs.Values.Nodes.{nodes_of};
ghost use Rattle.isle_program.specs.Programs.{value_facts, types_of, number_of};
ghost use Rattle.isle_values.specs.Values.Settled.{field_types};
ghost use Rattle.isle_calls.specs.Stores.Values.{Stands, StandEach};
ghost use Rattle.isle_values.specs.Values.Laying.{IsLeaf};
ghost use Rattle.isle_calls.specs.Inside.Stores.Printing.{Leads, field_steps, printed, printed_int};
ghost use Rattle.isle_program.specs.Tables.{variant_name, struct_name};

use super::{Store, Stored};
use isle_ast::Text;
use isle_program::Program;
use isle_types::{IntType, Type, TypeId, VariantId};
use isle_values::values::LaidValues;
use isle_values::values::typing::{Kind, data_term, kind_of};
use isle_values::{Node, Value};
use std::alloc::{AllocError, Global};

/// What is left to be done before a value is printed.
#[derive(Drop)]
pub(crate) enum Step {
    /// The value of a number is laid out, at a type.
    Number(usize, TypeId),
    /// Data of a name is made of its fields, so many of them, which are laid out.
    Data(Text, usize),
}

impl Store {
    /// The value of a number at a type.
    pub fn print(
        &self,
        alloc: Global,
        program: &Program,
        number: usize,
        ty: TypeId,
    ) -> Result<Value, AllocError>
        ensures { IfOk result (λ value. (v : ShownValue) → Stands self.now v number → IsValueOf (value_facts program.now) v ty.0
            → IsOfType (value_facts program.now) value ty.0 × (value_of (value_facts program.now) value ≡ v)) }
    {
        let mut laid = LaidValues::new(alloc);
        let mut left = vec![in alloc; Step::Number(number, ty)]?;
        for _i in 0..usize::MAX {
            match left.pop() {
                Some(step) => self.take_step(alloc, program, step, &mut laid, &mut left)?,
                None => return only_value(alloc, laid),
            }
        }
        Err(AllocError)
    }

    /// The values of numbers at types, one each.
    pub fn print_all(
        &self,
        alloc: Global,
        program: &Program,
        numbers: &[usize],
        types: &[TypeId],
    ) -> Result<Vec<Value>, AllocError>
        ensures { IfOk result (λ values. (vs : ShownValues) → StandEach self.now vs numbers.now
            → AreValuesOf (value_facts program.now) vs (map number_of types.now)
            → AreOfTypes (value_facts program.now) (value_list values.items) (map number_of types.now)
            × (values_of (value_facts program.now) (value_list values.items) ≡ vs)) }
    {
        let mut values = Vec::new(alloc);
        for i in 0..numbers.len() {
            values.push(self.print(alloc, program, numbers[i], type_or_first(types, i))?)?;
        }
        Ok(values)
    }

    /// Takes a step: a leaf is laid out, and so is data whose fields are; of other data the steps are put off.
    fn take_step(
        &self,
        alloc: Global,
        program: &Program,
        step: Step,
        laid: &mut LaidValues,
        left: &mut Vec<Step>,
    ) -> Result<(), AllocError>
        ensures { IfOk result (λ _. (made : ValueTrees)
            → Leads (value_facts program.now) (types_of program.now) self.now (step ∷ reverse left.old.items) laid.old made
            → Leads (value_facts program.now) (types_of program.now) self.now (reverse left.new.items) laid.new made) }
    {
        match step {
            Step::Data(name, fields) => laid.put_data(name, fields),
            Step::Number(number, ty) => match self.get(number) {
                Some(stored) => lay_out(alloc, program, stored, ty, laid, left),
                None => Ok(()),
            },
        }
    }
}

/// Lays out a leaf, or puts off the steps of data.
fn lay_out(
    alloc: Global,
    program: &Program,
    stored: &Stored,
    ty: TypeId,
    laid: &mut LaidValues,
    left: &mut Vec<Step>,
) -> Result<(), AllocError>
    ensures { IfOk result
        (λ _. (in_store : List DeclaredStored) (v : ShownValue) (n : ℕ) (made : ValueTrees) → slice_get in_store n ≡ Some stored.now
        → Stands in_store v n
        → Leads (value_facts program.now) (types_of program.now) in_store (reverse left.old.items)
        (more_trees (printed (value_facts program.now) (types_of program.now) v ty.0) laid.old) made
        → Leads (value_facts program.now) (types_of program.now) in_store (reverse left.new.items) laid.new made) }
{
    match stored {
        Stored::Bool(b) => laid.put_leaf(Node::Bool(*b)),
        Stored::Int(n) => laid.put_leaf(int_node(program, *n, ty)),
        Stored::Const(name) => laid.put_leaf(Node::Const(name.clone()?)),
        Stored::Opaque(n) => laid.put_leaf(Node::Opaque(*n)),
        Stored::Variant(of, variant, fields) => {
            put_off(
                alloc,
                program,
                variant_name(program, *of, *variant),
                fields.as_slice(),
                left,
            )
        }
        Stored::Struct(of, fields) => put_off(
            alloc,
            program,
            struct_name(program, *of),
            fields.as_slice(),
            left,
        ),
    }
}

/// The node of an integer of 128 bits at a type.
fn int_node(program: &Program, n: i128, ty: TypeId) -> Node
    ensures leaf { IsLeaf result }
    ensures printed { nodes_of (printed_int n ((value_facts program.now).kind ty.0)) ≡ result ∷ [] }
{
    if n < 0 && kind_of(program, ty) == Kind::Int(IntType::U128) {
        Node::Big(n.cast_unsigned())
    } else {
        Node::Int(n)
    }
}

/// Puts off the steps of data of a name: those that lay out its fields, the last field first, and the one that makes it of them.
fn put_off(
    alloc: Global,
    program: &Program,
    name: &str,
    fields: &[usize],
    left: &mut Vec<Step>,
) -> Result<(), AllocError>
    ensures { IfOk result (λ _. left.new.items ≡ left.old.items ++ Data name.now (length fields.now)
        ∷ field_steps fields.now (field_types ((value_facts program.now).data_named name.now))) }
{
    left.push(Step::Data(Text::from_str(alloc, name)?, fields.len()))?;
    let types = types_of_fields(program, name);
    for i in 0..fields.len() {
        left.push(Step::Number(fields[i], type_or_first(types, i)))?;
    }
    Ok(())
}

/// The types of the fields of data; none where the program has no data of the name.
fn types_of_fields<'a>(program: &'a Program, name: &str) -> &'a [TypeId]
    ensures { map number_of result.now ≡ field_types ((value_facts program.now).data_named name.now) }
{
    match data_term(program, name) {
        Some(term) => term.arg_tys.as_slice(),
        None => &[],
    }
}

/// The type at a place; the first of all types where there is none.
fn type_or_first(types: &[TypeId], place: usize) -> TypeId
    ensures { result ≡ unwrap_or (slice_get types.now place) (type_at 0) }
{
    match types.get(place) {
        Some(ty) => *ty,
        None => TypeId::BOOL,
    }
}

/// The full name of a variant; empty where there is none.
fn variant_name(program: &Program, ty: TypeId, variant: VariantId) -> &str
    ensures { result.now ≡ variant_name (types_of program.now) ty.0 variant.0 }
{
    let Some(Type::Enum { variants, .. }) = program.types().get_type(ty) else {
        return "";
    };
    match variants.as_slice().get(variant.index()) {
        Some(variant) => program.types().sym_name(variant.fullname),
        None => "",
    }
}

/// The name of a type; empty where there is none.
fn struct_name(program: &Program, ty: TypeId) -> &str
    ensures { result.now ≡ struct_name (types_of program.now) ty.0 }
{
    match program.types().get_type(ty) {
        Some(Type::Builtin(builtin)) => builtin.name(),
        Some(Type::Primitive(_, name, _)) => program.types().sym_name(*name),
        Some(Type::Enum { name, .. }) => program.types().sym_name(*name),
        Some(Type::Struct { name, .. }) => program.types().sym_name(*name),
        None => "",
    }
}

/// The only value that is laid out; `false` where there are others.
fn only_value(alloc: Global, laid: LaidValues) -> Result<Value, AllocError>
    ensures { IfOk result (λ value. (v : ValueTree) → laid ≡ more_trees v no_trees → value ≡ v) }
{
    match laid.into_value() {
        Some(value) => Ok(value),
        None => Value::bool(alloc, false),
    }
}
