//! What is printed of types, variants, numbers, constants and tests.
use isle_blocks::Constraint;
use isle_program::Program;
use isle_types::{BuiltinType, Sym, Type, TypeId, VariantId};
use std::alloc::{AllocError, Global};

/// The name of a type; empty where there is none.
pub(super) fn type_name(program: &Program, ty: TypeId) -> &str {
    match program.types().get_type(ty) {
        Some(known) => known.name(program.types()),
        None => "",
    }
}

/// `TYPE.VARIANT`; empty where there is no such variant.
pub(super) fn variant_name(program: &Program, ty: TypeId, variant: VariantId) -> &str {
    let Some(Type::Enum { variants, .. }) = program.types().get_type(ty) else {
        return "";
    };
    match variants.as_slice().get(variant.index()) {
        Some(known) => program.types().sym_name(known.fullname),
        None => "",
    }
}

/// A constant of the host, as it stands in a source.
pub(super) fn constant_text(
    alloc: Global,
    program: &Program,
    val: Sym,
) -> Result<String, AllocError> {
    let name = program.types().sym_name(val);
    format!(in alloc; "${name}")
}

/// A number of a type; of an unsigned one a negative number stands for one from 2^127 on.
pub(super) fn number_text(
    alloc: Global,
    program: &Program,
    val: i128,
    ty: TypeId,
) -> Result<String, AllocError> {
    if val < 0 && is_unsigned(program, ty) {
        let number = val.cast_unsigned();
        return format!(in alloc; "{number}");
    }
    format!(in alloc; "{val}")
}

/// Whether a type is an integer type without negative numbers.
fn is_unsigned(program: &Program, ty: TypeId) -> bool {
    match program.types().get_type(ty) {
        Some(Type::Builtin(BuiltinType::Int(int))) => !int.is_signed(),
        _ => false,
    }
}

/// What passes a test, with `_` for each field.
pub(super) fn test_text(
    alloc: Global,
    program: &Program,
    test: Constraint,
) -> Result<String, AllocError> {
    match test {
        Constraint::Variant {
            ty,
            variant,
            fields,
        } => blank_text(alloc, variant_name(program, ty, variant), fields.index()),
        Constraint::Struct { ty, fields } => blank_text(
            alloc,
            type_name(program, ty),
            fields.index(),
        ),
        Constraint::ConstBool { val, .. } => format!(in alloc; "{val}"),
        Constraint::ConstInt { val, ty } => number_text(alloc, program, val, ty),
        Constraint::ConstPrim { val } => constant_text(alloc, program, val),
        Constraint::Some => String::from_str(alloc, "_"),
    }
}

/// `(NAME _ ..)`.
pub(super) fn blank_text(alloc: Global, name: &str, count: usize) -> Result<String, AllocError> {
    let mut text = format!(in alloc; "({name}")?;
    for _ in 0..count {
        text.push_str(" _")?;
    }
    text.push_str(")")?;
    Ok(text)
}
