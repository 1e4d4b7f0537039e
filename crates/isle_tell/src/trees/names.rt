//! What is printed of types, variants, terms, numbers and places.
ghost use Rattle.std.specs.Prelude.{◌≡◌, ◌+◌, ◌++◌, ◌-◌, ◌∷◌, IfOk, slice_index, string_bytes};
ghost use Rattle.std.specs.Fmt.{decimal};
ghost use Rattle.std.specs.List.{flat_map};
ghost use Rattle.isle_ast.specs.Positions.Lines.{starts_up_to};
ghost use Rattle.isle_blocks.specs.Rows.{numbers_of};
ghost use Rattle.isle_blocks.specs.Trees.Nodes.{fields_of};
ghost use Rattle.isle_tell.specs.Inside.TreeTexts.Parts.{behind_space, field_behind_space, field_shown};
ghost use Rattle.isle_tell.specs.TreeTexts.Names.{fields_text, indent, numbers_text, pos_text, symbol_name, type_name_of, type_text, variant_name};

use isle_ast::files::{Files, LineMap};
use isle_ast::pos::Pos;
use isle_blocks::BindingId;
use isle_program::Program;
use isle_types::{Sym, Type, TypeId, VariantId};
use std::alloc::{AllocError, Global};

/// `NAME#NUMBER` of a type.
pub(crate) fn type_text(alloc: Global, program: &Program, ty: TypeId) -> Result<String, AllocError>
    ensures { IfOk result (λ text. string_bytes text ≡ type_text program.now ty) }
{
    let name = type_name(program, ty);
    let number = ty.index();
    format!(in alloc; "{name}#{number}")
}

/// The name of a type; empty where there is none.
pub(crate) fn type_name(program: &Program, ty: TypeId) -> &str
    ensures { result.now ≡ type_name_of program.now ty }
{
    match program.types().get_type(ty) {
        Some(known) => known.name(program.types()),
        None => "",
    }
}

/// `TYPE.VARIANT`; empty where there is no such variant.
pub(crate) fn variant_name(program: &Program, ty: TypeId, variant: VariantId) -> &str
    ensures { result.now ≡ variant_name program.now ty variant }
{
    match program.types().get_type(ty) {
        Some(Type::Enum { variants, .. }) => match variants.as_slice().get(variant.index()) {
            Some(known) => program.types().sym_name(known.fullname),
            None => "",
        },
        _ => "",
    }
}

/// The name of a symbol.
pub(crate) fn symbol_name(program: &Program, sym: Sym) -> &str
    ensures { result.now ≡ symbol_name program.now sym }
{
    program.types().sym_name(sym)
}

/// Numbers of sites with a space between two.
pub(crate) fn spaced(alloc: Global, ids: &[BindingId]) -> Result<String, AllocError>
    ensures { IfOk result (λ text. string_bytes text ≡ numbers_text (numbers_of ids.now)) }
{
    match ids.split_first() {
        Some((first, others)) => joined(alloc, *first, others),
        None => Ok(String::new(alloc)),
    }
}

/// A number, and others, each behind a space.
fn joined(alloc: Global, first: BindingId, others: &[BindingId]) -> Result<String, AllocError>
    ensures { IfOk result (λ text. string_bytes text ≡ decimal first.0 ++ flat_map behind_space others.now) }
{
    let number = first.index();
    let mut text = format!(in alloc; "{number}")?;
    for id in others {
        let number = id.index();
        let one = format!(in alloc; " {number}")?;
        text.push_str(one.as_str())?;
    }
    Ok(text)
}

/// The same of fields, of which some have no site.
pub(crate) fn spaced_fields(
    alloc: Global,
    fields: &[Option<BindingId>],
) -> Result<String, AllocError>
    ensures { IfOk result (λ text. string_bytes text ≡ fields_text (fields_of fields.now)) }
{
    match fields.split_first() {
        Some((first, others)) => joined_fields(alloc, *first, others),
        None => Ok(String::new(alloc)),
    }
}

/// A field, and others, each behind a space.
fn joined_fields(
    alloc: Global,
    first: Option<BindingId>,
    others: &[Option<BindingId>],
) -> Result<String, AllocError>
    ensures { IfOk result (λ text. string_bytes text ≡ field_shown first ++ flat_map field_behind_space others.now) }
{
    let mut text = field_text(alloc, first)?;
    for field in others {
        let one = field_text(alloc, *field)?;
        let one = one.as_str();
        let behind = format!(in alloc; " {one}")?;
        text.push_str(behind.as_str())?;
    }
    Ok(text)
}

/// The number of a site, and `_` where there is none.
fn field_text(alloc: Global, field: Option<BindingId>) -> Result<String, AllocError>
    ensures { IfOk result (λ text. string_bytes text ≡ field_shown field) }
{
    match field {
        Some(id) => {
            let number = id.index();
            format!(in alloc; "{number}")
        }
        None => String::from_str(alloc, "_"),
    }
}

/// The line of an offset, from 1.
fn line_of(map: &LineMap, offset: usize) -> usize
    ensures { result ≡ starts_up_to map.now offset + 1 }
{
    map.line(offset) + 1
}

/// The column of an offset, in bytes from 1.
fn column_of(map: &LineMap, offset: usize) -> u128
    ensures { result ≡ offset - slice_index (0 ∷ map.now) (starts_up_to map.now offset) + 1 }
{
    offset.saturating_sub(start_of(map, offset)) as u128 + 1
}

/// Where the line of an offset starts.
fn start_of(map: &LineMap, offset: usize) -> usize
    ensures { result ≡ slice_index (0 ∷ map.now) (starts_up_to map.now offset) }
{
    match map.line(offset).checked_sub(1) {
        None => 0,
        Some(i) => map[i],
    }
}

/// `FILE:LINE:COLUMN` of a place; nothing where its file isn't known.
pub fn place_text(alloc: Global, files: &Files, pos: Pos) -> Result<String, AllocError>
    ensures { IfOk result (λ text. string_bytes text ≡ pos_text files.now pos) }
{
    let (Some(name), Some(map)) = (files.file_name(pos.file), files.file_line_map(pos.file)) else {
        return Ok(String::new(alloc));
    };
    let line = line_of(map, pos.offset);
    let column = column_of(map, pos.offset);
    format!(in alloc; "{name}:{line}:{column}")
}

/// So many levels of two spaces.
pub fn spaces(alloc: Global, levels: usize) -> Result<String, AllocError>
    ensures { IfOk result (λ text. string_bytes text ≡ indent levels) }
{
    let mut text = String::new(alloc);
    for _ in 0..levels {
        text.push_str("  ")?;
    }
    Ok(text)
}
