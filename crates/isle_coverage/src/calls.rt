//! Rules without what they demand of calls.
ghost use Rattle.std.specs.Prelude.{List, Contains, IfOk};
ghost use Rattle.std.specs.List.{AllZip};
ghost use Rattle.isle_missing.specs.declared.demand.Demand.{Demand as KnownDemand};
ghost use Rattle.isle_coverage.specs.Inside.Less.{DemandsLess};

use isle_blocks::{Binding, BindingId};
use isle_missing::{Demand, Row, SiteId};
use std::alloc::{AllocError, Global};

/// Whether a site is marked.
fn is_marked(marks: &[bool], site: usize) -> bool {
    match marks.get(site) {
        Some(mark) => *mark,
        None => false,
    }
}

/// Whether one of some sites is.
fn some_marked(marks: &[bool], sites: &[BindingId]) -> bool {
    sites.iter().any(|site| is_marked(marks, site.index()))
}

/// Whether a site is a call, or is made of one that is marked.
fn asks_call(marks: &[bool], binding: &Binding) -> bool {
    match binding {
        Binding::Extractor { .. } | Binding::Constructor { .. } | Binding::Iterator { .. } => true,
        Binding::MakeVariant { fields, .. } | Binding::MakeStruct { fields, .. } => {
            some_marked(marks, fields.as_slice())
        }
        Binding::MatchVariant { source, .. }
        | Binding::ExtractStruct { source, .. }
        | Binding::MatchSome { source }
        | Binding::MatchTuple { source, .. } => is_marked(marks, source.index()),
        Binding::MakeSome { inner } => is_marked(marks, inner.index()),
        Binding::ConstBool { .. }
        | Binding::ConstInt { .. }
        | Binding::ConstPrim { .. }
        | Binding::Argument { .. } => false,
    }
}

/// Of each site whether it is a call, or made of one at any depth.
fn call_sites(alloc: Global, bindings: &[Binding]) -> Result<Vec<bool>, AllocError> {
    let mut marks = Vec::with_capacity(alloc, bindings.len())?;
    for binding in bindings {
        let mark = asks_call(marks.as_slice(), binding);
        marks.push(mark)?;
    }
    Ok(marks)
}

/// Whether a demand is one of a marked site.
fn is_of_call(marks: &[bool], demand: &Demand) -> bool {
    match demand {
        Demand::Passes {
            site: SiteId(site),
            ..
        } => is_marked(marks, *site),
        Demand::Same {
            first: SiteId(first),
            second: SiteId(second),
        } => is_marked(marks, *first) || is_marked(marks, *second),
    }
}

/// What a rule demands of other sites.
fn other_demands(
    alloc: Global,
    marks: &[bool],
    demands: &[Demand],
) -> Result<Vec<Demand>, AllocError>
    ensures { IfOk result (λ kept. (d : KnownDemand) → Contains kept.items d → Contains demands.now d) }
{
    let mut kept = Vec::new(alloc);
    for demand in demands {
        if !is_of_call(marks, demand) {
            kept.push(*demand)?;
        }
    }
    Ok(kept)
}

/// The rules without what they demand of calls, and of what is made of calls.
pub(crate) fn without_calls(
    alloc: Global,
    bindings: &[Binding],
    rows: &[Row],
) -> Result<Vec<Row>, AllocError>
    ensures { IfOk result (λ less. AllZip DemandsLess rows.now less.items) }
{
    let marks = call_sites(alloc, bindings)?;
    let mut less = Vec::with_capacity(alloc, rows.len())?;
    for row in rows {
        let kept = other_demands(alloc, marks.as_slice(), row.demands())?;
        less.push(Row::new(kept))?;
    }
    Ok(less)
}
