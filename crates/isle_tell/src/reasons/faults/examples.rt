//! A query that two rules match.

use crate::reasons::faults::samples::sample_variants;
use crate::reasons::faults::sites::{const_words, int_words, term_name, type_name, variant_name};
use isle_blocks::{Binding, BindingId, Constraint, Rule, RuleSet, TupleIndex};
use isle_program::faulty::Faulty;
use isle_types::{BuiltinType, Type, TypeId, VariantId};
use std::alloc::{AllocError, Global};

/// How many nodes an example has at most.
const LONGEST: usize = 200;
/// How many tests and equal sites a rule has at most of which an example is given.
const MOST: usize = 100;

/// What is still to be written of an example.
#[derive(Clone, Copy)]
enum Wanted {
    /// The value of a site, which is of this type.
    Site(BindingId, TypeId),
    /// Some value of a type.
    Sample(TypeId),
    /// The end of a list.
    End,
}

/// The rules that an example is to match, and the samples of types.
#[derive(Clone, Copy)]
struct Matched<'a> {
    faulty: &'a Faulty,
    set: &'a RuleSet,
    one: &'a Rule,
    other: &'a Rule,
    samples: &'a [Option<usize>],
}

/// `for example (f 1 1)`: a query that two rules of a term's rule set match, which may match together. Nothing where they ask more
/// than the arguments, or where it would be long.
pub(super) fn example(
    alloc: Global,
    faulty: &Faulty,
    term: isle_types::TermId,
    set: &RuleSet,
    one: &Rule,
    other: &Rule,
) -> Result<Option<String>, AllocError> {
    if !ask_arguments(alloc, set, one)? || !ask_arguments(alloc, set, other)? {
        return Ok(None);
    }
    if !leaves_equal(alloc, set, one, other)? || !leaves_equal(alloc, set, other, one)? {
        return Ok(None);
    }
    let samples = sample_variants(alloc, faulty.types.types())?;
    let matched = Matched {
        faulty,
        set,
        one,
        other,
        samples: samples.as_slice(),
    };
    query(alloc, &matched, term)
}

/// Whether a rule tests, or holds equal, parts of its arguments alone, and only some.
fn ask_arguments(alloc: Global, set: &RuleSet, rule: &Rule) -> Result<bool, AllocError> {
    if rule.total_constraints() > MOST {
        return Ok(false);
    }
    let sites = asked_sites(alloc, rule)?;
    Ok(
        sites
            .iter()
            .all(|site| is_of_argument(set.bindings(), *site)),
    )
}

/// The sites that a rule tests, and those that it holds equal.
fn asked_sites(alloc: Global, rule: &Rule) -> Result<Vec<BindingId>, AllocError> {
    let mut sites = equal_sites(alloc, rule)?;
    for place in 0..rule.constraints.len() {
        if let Some((site, _)) = rule.constraints.entry(place) {
            sites.push(*site)?;
        }
    }
    Ok(sites)
}

/// The sites that a rule holds equal to others.
fn equal_sites(alloc: Global, rule: &Rule) -> Result<Vec<BindingId>, AllocError> {
    let mut sites = Vec::new(alloc);
    for equal in rule.equal_sites(alloc)?.as_slice() {
        sites.extend_from_slice(equal.as_slice())?;
    }
    Ok(sites)
}

/// Whether a site is an argument or a part of one.
fn is_of_argument(sites: &[Binding], site: BindingId) -> bool {
    let mut at = site;
    for _ in 0..sites.len() {
        match sites.get(at.index()) {
            Some(Binding::Argument { .. }) => return true,
            Some(Binding::MatchVariant { source, .. } | Binding::ExtractStruct { source, .. }) =>
                at = *source,
            _ => return false,
        }
    }
    false
}

/// Whether a rule tests nothing of the sites that another one holds equal.
fn leaves_equal(
    alloc: Global,
    set: &RuleSet,
    one: &Rule,
    other: &Rule,
) -> Result<bool, AllocError> {
    let equal = equal_sites(alloc, one)?;
    for place in 0..other.constraints.len() {
        if let Some((site, _)) = other.constraints.entry(place) {
            if is_within(set.bindings(), *site, equal.as_slice()) {
                return Ok(false);
            }
        }
    }
    Ok(true)
}

/// Whether a site is one of others, or a part of one.
fn is_within(sites: &[Binding], site: BindingId, others: &[BindingId]) -> bool {
    let mut at = site;
    for _ in 0..sites.len() {
        if others.contains(&at) {
            return true;
        }
        match sites.get(at.index()) {
            Some(Binding::MatchVariant { source, .. } | Binding::ExtractStruct { source, .. }) =>
                at = *source,
            _ => return false,
        }
    }
    false
}

/// The query, unless it is long.
fn query(
    alloc: Global,
    matched: &Matched<'_>,
    term: isle_types::TermId,
) -> Result<Option<String>, AllocError> {
    let Some(known) = matched.faulty.terms.get_term(term) else {
        return Ok(None);
    };
    let name = term_name(matched.faulty, term);
    let mut text = format!(in alloc; "for example ({name}")?;
    let mut left = vec![in alloc; Wanted::End]?;
    push_arguments(matched, known.arg_tys.as_slice(), &mut left)?;
    for _ in 0..LONGEST {
        let Some(next) = left.pop() else {
            return Ok(Some(text));
        };
        if !push_next(alloc, matched, next, &mut text, &mut left)? {
            return Ok(None);
        }
    }
    Ok(None)
}

/// Wants the arguments, the first one next.
fn push_arguments(
    matched: &Matched<'_>,
    types: &[TypeId],
    left: &mut Vec<Wanted>,
) -> Result<(), AllocError> {
    for place in (0..types.len()).rev() {
        let site = match TupleIndex::try_from(place) {
            Ok(index) => matched.set.find_binding(&Binding::Argument { index }),
            Err(_) => None,
        };
        left.push(value_wanted(site, types[place]))?;
    }
    Ok(())
}

/// The value of a site, or some value where there is none.
fn value_wanted(site: Option<BindingId>, ty: TypeId) -> Wanted {
    match site {
        Some(id) => Wanted::Site(id, ty),
        None => Wanted::Sample(ty),
    }
}

/// Writes what is wanted next, and says whether that can be given.
fn push_next(
    alloc: Global,
    matched: &Matched<'_>,
    next: Wanted,
    text: &mut String,
    left: &mut Vec<Wanted>,
) -> Result<bool, AllocError> {
    match next {
        Wanted::End => {
            text.push_str(")")?;
            Ok(true)
        }
        Wanted::Sample(ty) => push_sample(alloc, matched, ty, text, left),
        Wanted::Site(site, ty) => match test_of(matched, site) {
            Some(test) => push_tested(alloc, matched, site, test, text, left),
            None => push_sample(alloc, matched, ty, text, left),
        },
    }
}

/// The test that either rule has of a site.
fn test_of(matched: &Matched<'_>, site: BindingId) -> Option<Constraint> {
    match matched.one.get_constraint(site) {
        Some(test) => Some(*test),
        None => matched.other.get_constraint(site).copied(),
    }
}

/// Writes a value that passes a test of its site.
fn push_tested(
    alloc: Global,
    matched: &Matched<'_>,
    site: BindingId,
    test: Constraint,
    text: &mut String,
    left: &mut Vec<Wanted>,
) -> Result<bool, AllocError> {
    match test {
        Constraint::Some => return Ok(false),
        Constraint::ConstBool { val, .. } => push_word(text, if val { "true" } else { "false" })?,
        Constraint::ConstInt { val, ty } => {
            let word = int_words(alloc, matched.faulty, val, ty)?;
            push_word(text, word.as_str())?;
        }
        Constraint::ConstPrim { val } => {
            let word = const_words(alloc, matched.faulty, val)?;
            push_word(text, word.as_str())?;
        }
        Constraint::Variant { ty, variant, .. } => {
            push_data(alloc, matched, ty, Some(variant), Some(site), text, left)?;
        }
        Constraint::Struct { ty, .. } => {
            push_data(alloc, matched, ty, None, Some(site), text, left)?;
        }
    }
    Ok(true)
}

/// Writes some value of a type.
fn push_sample(
    alloc: Global,
    matched: &Matched<'_>,
    ty: TypeId,
    text: &mut String,
    left: &mut Vec<Wanted>,
) -> Result<bool, AllocError> {
    let faulty = matched.faulty;
    let (Some(known), Some(Some(sample))) = (
        faulty.types.get_type(ty),
        matched.samples.get(ty.index()),
    ) else {
        return Ok(false);
    };
    match known {
        Type::Builtin(BuiltinType::Bool) => push_word(text, "false")?,
        Type::Builtin(BuiltinType::Int(_)) => push_word(text, "0")?,
        Type::Primitive(_, _, _) => push_word(text, "v0")?,
        Type::Enum { .. } => {
            push_data(
                alloc,
                matched,
                ty,
                Some(VariantId(*sample)),
                None,
                text,
                left,
            )?;
        }
        Type::Struct { .. } => push_data(alloc, matched, ty, None, None, text, left)?,
    }
    Ok(true)
}

/// Writes a word behind a space.
fn push_word(text: &mut String, word: &str) -> Result<(), AllocError> {
    text.push_str(" ")?;
    text.push_str(word)
}

/// Writes the head of a variant or of a struct behind a space, and wants its fields, the first one next, and behind them its end. They are
/// those of a site, or samples.
fn push_data(
    alloc: Global,
    matched: &Matched<'_>,
    ty: TypeId,
    variant: Option<VariantId>,
    site: Option<BindingId>,
    text: &mut String,
    left: &mut Vec<Wanted>,
) -> Result<(), AllocError> {
    text.push_str(" (")?;
    text.push_str(data_name(matched.faulty, ty, variant))?;
    left.push(Wanted::End)?;
    let types = field_types(alloc, matched.faulty, ty, variant)?;
    push_fields(matched, variant, site, types.as_slice(), left)
}

/// The name of a variant or of a struct.
fn data_name(faulty: &Faulty, ty: TypeId, variant: Option<VariantId>) -> &str {
    match variant {
        Some(variant) => variant_name(faulty, ty, variant),
        None => type_name(faulty, ty),
    }
}

/// Wants the fields of a site that is such a variant or a struct, or samples of them, the first one next.
fn push_fields(
    matched: &Matched<'_>,
    variant: Option<VariantId>,
    site: Option<BindingId>,
    types: &[TypeId],
    left: &mut Vec<Wanted>,
) -> Result<(), AllocError> {
    for place in (0..types.len()).rev() {
        let field = match (site, TupleIndex::try_from(place)) {
            (Some(source), Ok(field)) => field_site(matched.set, source, variant, field),
            _ => None,
        };
        left.push(value_wanted(field, types[place]))?;
    }
    Ok(())
}

/// The site of a field, if the rules speak of it.
fn field_site(
    set: &RuleSet,
    source: BindingId,
    variant: Option<VariantId>,
    field: TupleIndex,
) -> Option<BindingId> {
    match variant {
        Some(variant) => set.find_binding(&Binding::MatchVariant {
            source,
            variant,
            field,
        }),
        None => set.find_binding(&Binding::ExtractStruct { source, field }),
    }
}

/// The types of the fields of a variant or of a struct.
fn field_types(
    alloc: Global,
    faulty: &Faulty,
    ty: TypeId,
    variant: Option<VariantId>,
) -> Result<Vec<TypeId>, AllocError> {
    match (faulty.types.get_type(ty), variant) {
        (Some(Type::Enum { variants, .. }), Some(variant)) => {
            match variants.as_slice().get(variant.index()) {
                Some(known) => known.fields.types(alloc),
                None => Ok(Vec::new(alloc)),
            }
        }
        (Some(Type::Struct { fields, .. }), None) => fields.types(alloc),
        _ => Ok(Vec::new(alloc)),
    }
}
