//! What is printed of sites and of tests.
ghost use Rattle.std.specs.Prelude.{◌≡◌, ◌++◌, IfOk, codes, string_bytes};
ghost use Rattle.std.specs.Fmt.{decimal, signed_decimal};
ghost use Rattle.isle_blocks.specs.Rows.{numbers_of};
ghost use Rattle.isle_program.specs.Programs.{term_name};
ghost use Rattle.isle_tell.specs.TreeTexts.Names.{bool_text, numbers_text, symbol_name as shown_symbol, type_text as shown_type};
ghost use Rattle.isle_tell.specs.TreeTexts.Names.{variant_name as shown_variant};
ghost use Rattle.isle_tell.specs.TreeTexts.Sites.{site_line, site_text, sites_text, test_text};

use crate::trees::names::{spaced, symbol_name, type_text, variant_name};
use isle_blocks::{Binding, BindingId, Constraint, TupleIndex};
use isle_program::Program;
use isle_types::{Sym, TermId, TypeId, VariantId};
use std::alloc::{AllocError, Global};

/// A site, with its parts by their numbers.
fn site_text(alloc: Global, program: &Program, site: &Binding) -> Result<String, AllocError>
    ensures { IfOk result (λ text. string_bytes text ≡ site_text program.now site.now) }
{
    match site {
        Binding::ConstBool { val, ty } => const_bool(alloc, program, *val, *ty),
        Binding::ConstInt { val, ty } => const_int(alloc, program, *val, *ty),
        Binding::ConstPrim { val } => const_prim(alloc, program, *val),
        Binding::Argument { index } => numbered(alloc, "Argument ", index.0.into()),
        Binding::Extractor { term, parameter } => extractor(alloc, program, *term, *parameter),
        Binding::Constructor {
            term,
            parameters,
            instance,
        } => constructor(alloc, program, *term, parameters.as_slice(), *instance),
        Binding::Iterator { source } => numbered(alloc, "Iterator ", source.index()),
        Binding::MakeVariant {
            ty,
            variant,
            fields,
        } => make_variant(alloc, program, *ty, *variant, fields.as_slice()),
        Binding::MatchVariant {
            source,
            variant,
            field,
        } => match_variant(alloc, *source, *variant, *field),
        Binding::MakeStruct { ty, fields } => make_struct(alloc, program, *ty, fields.as_slice()),
        Binding::ExtractStruct { source, field } => {
            field_of(alloc, "ExtractStruct ", *source, *field)
        }
        Binding::MakeSome { inner } => numbered(alloc, "MakeSome ", inner.index()),
        Binding::MatchSome { source } => numbered(alloc, "MatchSome ", source.index()),
        Binding::MatchTuple { source, field } => field_of(alloc, "MatchTuple ", *source, *field),
    }
}

/// A truth value of a type.
fn const_bool(alloc: Global, program: &Program, val: bool, ty: TypeId) -> Result<String, AllocError>
    ensures { IfOk result (λ text. string_bytes text
        ≡ codes "ConstBool " ++ (bool_text val ++ (codes " " ++ shown_type program.now ty))) }
{
    let ty = type_text(alloc, program, ty)?;
    format!(in alloc; "ConstBool {val} {ty}")
}

/// An integer of a type.
fn const_int(alloc: Global, program: &Program, val: i128, ty: TypeId) -> Result<String, AllocError>
    ensures { IfOk result (λ text. string_bytes text
        ≡ codes "ConstInt " ++ (signed_decimal val ++ (codes " " ++ shown_type program.now ty))) }
{
    let ty = type_text(alloc, program, ty)?;
    format!(in alloc; "ConstInt {val} {ty}")
}

/// A constant of the host.
fn const_prim(alloc: Global, program: &Program, val: Sym) -> Result<String, AllocError>
    ensures { IfOk result (λ text. string_bytes text ≡ codes "ConstPrim $" ++ shown_symbol program.now val) }
{
    let name = symbol_name(program, val);
    format!(in alloc; "ConstPrim ${name}")
}

/// A word and a number.
fn numbered(alloc: Global, word: &str, number: usize) -> Result<String, AllocError>
    ensures { IfOk result (λ text. string_bytes text ≡ word.now ++ decimal number) }
{
    format!(in alloc; "{word}{number}")
}

/// A word, a site, and the number of a field.
fn field_of(
    alloc: Global,
    word: &str,
    source: BindingId,
    field: TupleIndex,
) -> Result<String, AllocError>
    ensures { IfOk result (λ text. string_bytes text
        ≡ word.now ++ (decimal source.0 ++ (codes " field " ++ decimal field.0))) }
{
    let source = source.index();
    let field = field.0;
    format!(in alloc; "{word}{source} field {field}")
}

/// A call of an extractor.
fn extractor(
    alloc: Global,
    program: &Program,
    term: TermId,
    parameter: BindingId,
) -> Result<String, AllocError>
    ensures { IfOk result (λ text. string_bytes text ≡ codes "Extractor "
        ++ (term_name program.now term ++ (codes " (" ++ (decimal parameter.0 ++ codes ")")))) }
{
    let name = program.name(term);
    let parameter = parameter.index();
    format!(in alloc; "Extractor {name} ({parameter})")
}

/// A call of a constructor.
fn constructor(
    alloc: Global,
    program: &Program,
    term: TermId,
    parameters: &[BindingId],
    instance: u32,
) -> Result<String, AllocError>
    ensures { IfOk result (λ text. string_bytes text ≡ codes "Constructor " ++ (term_name program.now term
        ++ (codes " (" ++ (numbers_text (numbers_of parameters.now) ++ (codes ") instance " ++ decimal instance))))) }
{
    let name = program.name(term);
    let parameters = spaced(alloc, parameters)?;
    format!(in alloc; "Constructor {name} ({parameters}) instance {instance}")
}

/// A variant that is made.
fn make_variant(
    alloc: Global,
    program: &Program,
    ty: TypeId,
    variant: VariantId,
    fields: &[BindingId],
) -> Result<String, AllocError>
    ensures { IfOk result (λ text. string_bytes text ≡ codes "MakeVariant "
        ++ (shown_variant program.now ty variant ++ (codes " (" ++ (numbers_text (numbers_of fields.now) ++ codes ")")))) }
{
    let name = variant_name(program, ty, variant);
    let fields = spaced(alloc, fields)?;
    format!(in alloc; "MakeVariant {name} ({fields})")
}

/// A field of a variant.
fn match_variant(
    alloc: Global,
    source: BindingId,
    variant: VariantId,
    field: TupleIndex,
) -> Result<String, AllocError>
    ensures { IfOk result (λ text. string_bytes text ≡ codes "MatchVariant " ++ (decimal source.0
        ++ (codes " variant " ++ (decimal variant.0 ++ (codes " field " ++ decimal field.0))))) }
{
    let source = source.index();
    let variant = variant.index();
    let field = field.0;
    format!(in alloc; "MatchVariant {source} variant {variant} field {field}")
}

/// A struct that is made.
fn make_struct(
    alloc: Global,
    program: &Program,
    ty: TypeId,
    fields: &[BindingId],
) -> Result<String, AllocError>
    ensures { IfOk result (λ text. string_bytes text ≡ codes "MakeStruct "
        ++ (shown_type program.now ty ++ (codes " (" ++ (numbers_text (numbers_of fields.now) ++ codes ")")))) }
{
    let ty = type_text(alloc, program, ty)?;
    let fields = spaced(alloc, fields)?;
    format!(in alloc; "MakeStruct {ty} ({fields})")
}

/// A test.
pub(crate) fn test_text(
    alloc: Global,
    program: &Program,
    test: &Constraint,
) -> Result<String, AllocError>
    ensures { IfOk result (λ text. string_bytes text ≡ test_text program.now test.now) }
{
    match test {
        Constraint::Variant {
            ty,
            variant,
            fields,
        } => {
            let name = variant_name(program, *ty, *variant);
            let fields = fields.0;
            format!(in alloc; "Variant {name}/{fields}")
        }
        Constraint::Struct { ty, fields } => {
            let ty = type_text(alloc, program, *ty)?;
            let fields = fields.0;
            format!(in alloc; "Struct {ty}/{fields}")
        }
        Constraint::ConstBool { val, ty } => const_bool(alloc, program, *val, *ty),
        Constraint::ConstInt { val, ty } => const_int(alloc, program, *val, *ty),
        Constraint::ConstPrim { val } => const_prim(alloc, program, *val),
        Constraint::Some => String::from_str(alloc, "Some"),
    }
}

/// The line of a site.
fn site_line(
    alloc: Global,
    program: &Program,
    number: usize,
    site: &Binding,
) -> Result<String, AllocError>
    ensures { IfOk result (λ text. string_bytes text ≡ site_line program.now number site.now) }
{
    let site = site_text(alloc, program, site)?;
    format!(in alloc; "    {number} = {site}\n")
}

/// A line for each site, with its number.
pub(crate) fn sites_text(
    alloc: Global,
    program: &Program,
    sites: &[Binding],
) -> Result<String, AllocError>
    ensures { IfOk result (λ text. string_bytes text ≡ sites_text program.now 0 sites.now) }
{
    let mut text = String::new(alloc);
    for place in 0..sites.len() {
        let line = site_line(alloc, program, place, &sites[place])?;
        text.push_str(line.as_str())?;
    }
    Ok(text)
}
