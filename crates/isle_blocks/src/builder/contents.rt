//! The options whose contents a site is made of.
ghost use Rattle.std.specs.Prelude.{◌≡◌, ◌<◌, ◌+◌, ◌^◌, ◌∷◌, [], false, slice_index_or, length, IfOk, OnOk, MatchOption};
ghost use Rattle.isle_blocks.specs.declared.ids.BindingId.{BindingId};
ghost use Rattle.isle_blocks.specs.Tables.{sources_of};
ghost use Rattle.isle_blocks.specs.Inside.Building.Contents.{PartsAreBefore, AreAsked, MarksMore, Walked, IsStart};

use crate::binding::Binding;
use crate::ids::BindingId;
use std::alloc::{AllocError, Global};

/// What a content is the content of.
fn content_of(binding: &Binding) -> Option<BindingId>
    ensures { MatchOption result ((call : BindingId) → binding.now ≡ Binding.MatchSome call → ⊥) (λ call. binding.now ≡ Binding.MatchSome call) }
{
    match binding {
        Binding::MatchSome { source } => Some(*source),
        Binding::ConstBool { .. } => None,
        Binding::ConstInt { .. } => None,
        Binding::ConstPrim { .. } => None,
        Binding::Argument { .. } => None,
        Binding::Extractor { .. } => None,
        Binding::Constructor { .. } => None,
        Binding::Iterator { .. } => None,
        Binding::MakeVariant { .. } => None,
        Binding::MatchVariant { .. } => None,
        Binding::MakeStruct { .. } => None,
        Binding::ExtractStruct { .. } => None,
        Binding::MakeSome { .. } => None,
        Binding::MatchTuple { .. } => None,
    }
}

/// Marks a number, where there is a mark for it.
fn mark_one(marks: &mut Vec<bool>, part: BindingId)
    ensures { MarksMore (part ∷ []) marks.old.items marks.new.items }
{
    let place = part.index();
    if place < marks.len() {
        marks[place] = true;
    }
}

/// Marks the numbers of a list.
fn mark(marks: &mut Vec<bool>, parts: &[BindingId])
    ensures { MarksMore parts.now marks.old.items marks.new.items }
{
    for i in 0..parts.len() {
        mark_one(marks, parts[i]);
    }
}

/// Whether a number is marked.
fn is_marked(marks: &Vec<bool>, k: usize) -> bool
    ensures { result ≡ slice_index_or marks.now.items k false }
{
    match marks.get(k) {
        Some(mark) => *mark,
        None => false,
    }
}

/// A number's turn.
fn walk(
    bindings: &[Binding],
    k: usize,
    marks: &mut Vec<bool>,
    calls: &mut Vec<BindingId>,
) -> Result<(), AllocError>
    requires table { k < length bindings.now }
    requires marks { k < length marks.old.items }
    ensures { OnOk result (Walked bindings.now k marks.old.items calls.old.items marks.new.items calls.new.items) }
{
    if !is_marked(marks, k) {
        return Ok(());
    }
    let entry = &bindings[k];
    mark(marks, entry.sources());
    if let Some(call) = content_of(entry) {
        calls.push(call)?;
    }
    Ok(())
}

/// Marks for the numbers up to a site, which alone is marked.
fn start(alloc: Global, site: usize) -> Result<Vec<bool>, AllocError>
    requires { site + 1 < 2 ^ 64 }
    ensures { IfOk result (λ marks. IsStart site marks.items) }
{
    let mut marks = vec![in alloc; false; site + 1]?;
    marks[site] = true;
    Ok(marks)
}

/// The options whose contents a site is made of, in a table in which each site's parts stand before it.
pub(crate) fn calls_within(
    alloc: Global,
    bindings: &[Binding],
    site: BindingId,
) -> Result<Vec<BindingId>, AllocError>
    ensures { IfOk result (λ calls. PartsAreBefore bindings.now → AreAsked bindings.now site.0 calls.items) }
{
    let mut calls = Vec::new(alloc);
    let site = site.index();
    if site >= bindings.len() {
        return Ok(calls);
    }
    let mut marks = start(alloc, site)?;
    for n in 0..site + 1 {
        walk(bindings, site - n, &mut marks, &mut calls)?;
    }
    Ok(calls)
}
