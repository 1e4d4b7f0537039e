//! The tests of which each value of a type passes one, where these are few.
ghost use Rattle.std.specs.Prelude.{◌≡◌, ℕ, List, Some, IfOk, IfSome, IsTrue, OnOk, negsuc, pos, slice_get};
ghost use Rattle.std.specs.List.{filter_map};
ghost use Rattle.isle_meaning.specs.ValueTypes.{data_kind};
ghost use Rattle.isle_program.specs.Tables.{kind_of_type};
ghost use Rattle.isle_types.specs.TypeEnvs.{sym_named, type_of_constant};
ghost use Rattle.isle_coverage.specs.Inside.Complete.{data_test, kind_of_builtin, own_test, AreComplete, HaveConstants, HaveLiterals, HaveNegatives, HaveNumbers, HaveSigned, HaveTruths, KeepsTests};

use isle_blocks::{Constraint, TupleIndex};
use isle_program::Program;
use isle_rules::{Term, TermKind};
use isle_types::{BuiltinType, IntType, Sym, Type, TypeEnv, TypeId};
use std::alloc::{AllocError, Global};

/// The test that the data passes which a term makes; nothing of a declared term, nor where there are more fields than a test can count.
fn data_test(term: &Term) -> Option<Constraint>
    ensures { result ≡ data_test term.now }
{
    let ty = term.ret_ty;
    let fields = TupleIndex::try_from(term.arg_tys.as_slice().len()).ok()?;
    match term.kind {
        TermKind::EnumVariant { variant } => Some(Constraint::Variant {
            ty,
            variant,
            fields,
        }),
        TermKind::Struct => Some(Constraint::Struct { ty, fields }),
        TermKind::Decl { .. } => None,
    }
}

/// The same, where the data is of a type.
fn own_test(term: &Term, ty: TypeId) -> Option<Constraint>
    ensures { result ≡ own_test ty term.now }
{
    if term.ret_ty == ty {
        data_test(term)
    } else {
        None
    }
}

/// The tests of all data of a type.
fn data_tests(alloc: Global, terms: &[Term], ty: TypeId) -> Result<Vec<Constraint>, AllocError>
    ensures { IfOk result (λ tests. tests.items ≡ filter_map (own_test ty) terms.now) }
{
    terms
        .iter()
        .filter_map(|term| own_test(term, ty))
        .collect(alloc)
}

/// Whether a symbol is that of a constant of the host of a type.
fn is_constant(types: &TypeEnv, val: Sym, ty: TypeId) -> bool
    ensures { (name : List ℕ) → sym_named types.now name ≡ Some val → type_of_constant types.now name ≡ Some ty → IsTrue result }
{
    match types.const_types().get(&val) {
        Some(own) => *own == ty,
        None => false,
    }
}

/// Adds the constants of the host of a type.
fn add_constants(tests: &mut Vec<Constraint>, types: &TypeEnv, ty: TypeId) -> Result<(), AllocError>
    ensures constants { OnOk result (HaveConstants types.now ty tests.new.items) }
    ensures kept { OnOk result (KeepsTests tests.old.items tests.new.items) }
{
    let _table = types.const_types();
    for number in 0..types.syms().len() {
        let val = Sym(number);
        if is_constant(types, val, ty) {
            tests.push(Constraint::ConstPrim { val })?;
        }
    }
    Ok(())
}

/// The test of a number from 0 on.
fn number_test(number: u16, ty: TypeId) -> Constraint
    ensures { result ≡ Constraint.ConstInt (pos number) ty }
{
    let val = i128::from(number);
    Constraint::ConstInt { val, ty }
}

/// The test of a number counted down from -1.
fn negative_test(number: u16, ty: TypeId) -> Constraint
    ensures { result ≡ Constraint.ConstInt (negsuc number) ty }
{
    let val = -1 - i128::from(number);
    Constraint::ConstInt { val, ty }
}

/// Adds the numbers from 0 on, so many.
fn add_numbers(tests: &mut Vec<Constraint>, count: u16, ty: TypeId) -> Result<(), AllocError>
    ensures numbers { OnOk result (HaveNumbers count ty tests.new.items) }
    ensures kept { OnOk result (KeepsTests tests.old.items tests.new.items) }
{
    for number in 0..count {
        tests.push(number_test(number, ty))?;
    }
    Ok(())
}

/// Adds the numbers from -1 down, so many.
fn add_negatives(tests: &mut Vec<Constraint>, count: u16, ty: TypeId) -> Result<(), AllocError>
    ensures numbers { OnOk result (HaveNegatives count ty tests.new.items) }
    ensures kept { OnOk result (KeepsTests tests.old.items tests.new.items) }
{
    for number in 0..count {
        tests.push(negative_test(number, ty))?;
    }
    Ok(())
}

/// Adds the numbers from -128 to 127.
fn add_signed(tests: &mut Vec<Constraint>, ty: TypeId) -> Result<(), AllocError>
    ensures numbers { OnOk result (HaveSigned ty tests.new.items) }
    ensures kept { OnOk result (KeepsTests tests.old.items tests.new.items) }
{
    add_numbers(tests, 128, ty)?;
    add_negatives(tests, 128, ty)?;
    Ok(())
}

/// Adds both truth values.
fn add_truths(tests: &mut Vec<Constraint>, ty: TypeId) -> Result<(), AllocError>
    ensures truths { OnOk result (HaveTruths ty tests.new.items) }
    ensures kept { OnOk result (KeepsTests tests.old.items tests.new.items) }
{
    tests.push(Constraint::ConstBool { val: false, ty })?;
    tests.push(Constraint::ConstBool { val: true, ty })?;
    Ok(())
}

/// Adds the literals of a builtin type, where they are few; false where they aren't.
fn add_literals(
    tests: &mut Vec<Constraint>,
    builtin: BuiltinType,
    ty: TypeId,
) -> Result<bool, AllocError>
    ensures literals { IfOk result (λ few. IsTrue few → HaveLiterals builtin ty tests.new.items) }
    ensures kept { OnOk result (KeepsTests tests.old.items tests.new.items) }
{
    match builtin {
        BuiltinType::Bool => add_truths(tests, ty)?,
        BuiltinType::Int(IntType::U8) => add_numbers(tests, 256, ty)?,
        BuiltinType::Int(IntType::I8) => add_signed(tests, ty)?,
        BuiltinType::Int(_) => return Ok(false),
    }
    Ok(true)
}

/// Whether a type is one of data: an enum or a struct.
fn is_data_type(types: &TypeEnv, ty: TypeId) -> bool
    ensures { IsTrue result → kind_of_type (slice_get types.now.types ty.0) ≡ data_kind }
{
    match types.get_type(ty) {
        Some(Type::Enum { .. }) => true,
        Some(Type::Struct { .. }) => true,
        _ => false,
    }
}

/// The builtin type of an id, if it is one.
fn builtin_type(types: &TypeEnv, ty: TypeId) -> Option<BuiltinType>
    ensures { IfSome result (λ builtin. kind_of_type (slice_get types.now.types ty.0) ≡ kind_of_builtin builtin) }
{
    match types.get_type(ty) {
        Some(Type::Builtin(builtin)) => Some(*builtin),
        _ => None,
    }
}

/// The tests of which each value of a type passes one, where these are few: its variants, or its struct, or the truth values or the numbers of
/// 8 bits, with the constants of the host of the type.
pub(crate) fn complete_tests(
    alloc: Global,
    program: &Program,
    ty: TypeId,
) -> Result<Option<Vec<Constraint>>, AllocError>
    ensures { IfOk result (λ found. IfSome found (λ tests. AreComplete program.now ty.0 tests.items)) }
{
    let mut tests = data_tests(alloc, program.terms().terms(), ty)?;
    if is_data_type(program.types(), ty) {
        return Ok(Some(tests));
    }
    let Some(builtin) = builtin_type(program.types(), ty) else {
        return Ok(None);
    };
    add_constants(&mut tests, program.types(), ty)?;
    if add_literals(&mut tests, builtin, ty)? {
        Ok(Some(tests))
    } else {
        Ok(None)
    }
}
