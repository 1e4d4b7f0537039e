//! A world that answers by tables.
ghost use Rattle.std.specs.Prelude.{◌≡◌, ◌++◌, [], IfOk, OnOk, OnErr, IsTrue, Some, None};
ghost use Rattle.isle_rules.specs.Values.{value_list};
ghost use Rattle.isle_values.specs.Worlds.Entries.{part_shown};
ghost use Rattle.isle_values.specs.Worlds.Tables.{answered, constructed, first_of, key_of};

use super::World;
use super::entry::{Entry, Side};
use crate::values::{Node, Value, nodes_of_all};
use isle_syntax::{Seq, Text};
use std::alloc::{AllocError, AllocFailed, Global};
use std::collections::BTreeMap;
use std::marker::Model;

/// What an entry stands at: the nodes of the call's values, or all calls without an entry of their own, and the side of a term. Keys are
/// ordered by their calls first, in which most of them differ.
#[derive(PartialEq, Eq, PartialOrd, Ord, Drop)]
pub(crate) struct Key {
    call: Option<Seq<Node>>,
    term: Text,
    side: Side,
}

/// A world whose external terms are answered by the entries of a text. The answers never change.
#[derive(Drop)]
pub struct TableWorld {
    answers: BTreeMap<Key, Option<Vec<Value>>>,
}

impl Model for TableWorld {
    ghost use Rattle.std.specs.Prelude.{List, map, All};
    ghost use Rattle.std.specs.Coded.{coded_list};
    ghost use Rattle.isle_values.specs.Worlds.EntryCode.{entry_tree_code};
    ghost use Rattle.isle_values.specs.Worlds.Entries.{EntryTree};
    ghost use Rattle.isle_values.specs.Worlds.Tables.{row_shown, IsKey};

    ghost Value = { List EntryTree };

    ghost coded = { coded_list entry_tree_code };

    ghost view = { λ world. map row_shown world.answers.entries };

    ghost invariant = { λ world. All IsKey world.answers.entries };
}

/// Copies of values.
fn copies(alloc: Global, values: &[Value]) -> Result<Vec<Value>, AllocError>
    ensures { IfOk result (λ copy. copy.items ≡ values.now) }
{
    let mut copy = Vec::new(alloc);
    for value in values {
        copy.push(value.clone()?)?;
    }
    Ok(copy)
}

/// The key of a call.
fn call_key(alloc: Global, side: Side, term: &str, call: Vec<Value>) -> Result<Key, AllocError>
    ensures { IfOk result (λ key. key ≡ key_of side term.now (Some (value_list call.items))) }
{
    let nodes = nodes_of_all(alloc, call)?;
    Ok(Key {
        side,
        term: Text::from_str(alloc, term)?,
        call: Some(Seq::new(nodes)),
    })
}

/// The key of all calls that have no entry of their own.
fn else_key(alloc: Global, side: Side, term: &str) -> Result<Key, AllocError>
    ensures { IfOk result (λ key. key ≡ key_of side term.now None) }
{
    Ok(Key {
        side,
        term: Text::from_str(alloc, term)?,
        call: None,
    })
}

/// The key of an entry, of what the entry has.
fn entry_key(
    alloc: Global,
    side: Side,
    term: Text,
    call: Option<Vec<Value>>,
) -> Result<Key, AllocError>
    ensures { IfOk result (λ key. key ≡ key_of side term (part_shown call)) }
{
    let call = match call {
        Some(values) => Some(Seq::new(nodes_of_all(alloc, values)?)),
        None => None,
    };
    Ok(Key { side, term, call })
}

/// A copy of an answer.
fn copied(alloc: Global, answer: &Option<Vec<Value>>) -> Result<Option<Vec<Value>>, AllocError>
    ensures { IfOk result (λ copy. part_shown copy ≡ part_shown answer.now) }
{
    match answer {
        Some(values) => Ok(Some(values.clone()?)),
        None => Ok(None),
    }
}

impl TableWorld {
    ghost use Rattle.std.specs.Prelude.{true, false, IsSome, ◌↔◌};
    ghost use Rattle.isle_values.specs.Worlds.Entries.{entry_shown};
    ghost use Rattle.isle_values.specs.Worlds.Tables.{IsAdded, entry_at, entry_of};

    /// A world without entries.
    pub(crate) fn empty(alloc: Global) -> TableWorld
        ensures { result ≡ [] }
    {
        TableWorld {
            answers: BTreeMap::new(alloc),
        }
    }

    /// Puts in an entry, if its call has none.
    pub(crate) fn add(&mut self, alloc: Global, entry: Entry) -> Result<bool, AllocError>
        ensures added { IfOk result (λ added. added ≡ true → IsAdded self.old (entry_shown entry) self.new) }
        ensures twice { IfOk result (λ added. added ≡ false → IsSome (entry_of self.old (entry_shown entry))) }
    {
        let Entry {
            side,
            term,
            call,
            answer,
        } = entry;
        let key = entry_key(alloc, side, term, call)?;
        let replaced = self.answers.insert(key, answer)?;
        Ok(replaced.is_none())
    }

    /// Whether an entry stands for all calls of a side of a term that have none of their own.
    pub(crate) fn has_else(&self, alloc: Global, side: Side, term: &str) -> Result<bool, AllocError>
        ensures { IfOk result (λ found. IsTrue found ↔ IsSome (entry_at self.now side term.now None)) }
    {
        let key = else_key(alloc, side, term)?;
        Ok(self.answers.contains_key(&key))
    }

    /// Whether a call has an entry of its own.
    pub fn has_entry(
        &self,
        alloc: Global,
        side: Side,
        term: &str,
        call: &[Value],
    ) -> Result<bool, AllocError>
        ensures { IfOk result (λ found. IsTrue found ↔ IsSome (entry_at self.now side term.now (Some (value_list call.now)))) }
    {
        let wanted = call_key(alloc, side, term, copies(alloc, call)?)?;
        Ok(self.answers.contains_key(&wanted))
    }

    /// What a call is answered: by its entry, else by the term's `else`, else none.
    fn answer(
        &self,
        alloc: Global,
        side: Side,
        term: &str,
        call: &[Value],
    ) -> Result<Option<Vec<Value>>, AllocError>
        ensures { IfOk result (λ answer. part_shown answer ≡ answered self.now side term.now (value_list call.now)) }
    {
        let key = call_key(alloc, side, term, copies(alloc, call)?)?;
        if let Some(answer) = self.answers.get(&key) {
            let copy = copied(alloc, answer)?;
            return Ok(copy);
        }
        let key = else_key(alloc, side, term)?;
        match self.answers.get(&key) {
            Some(answer) => {
                let copy = copied(alloc, answer)?;
                Ok(copy)
            }
            None => Ok(None),
        }
    }

    /// The value that a constructor's call is answered.
    fn made(&self, alloc: Global, term: &str, args: &[Value]) -> Result<Option<Value>, AllocError>
        ensures { IfOk result (λ answer. answer ≡ constructed self.now term.now (value_list args.now)) }
    {
        match self.answer(alloc, Side::Constructor, term, args)? {
            Some(values) => Ok(first_of(values)),
            None => Ok(None),
        }
    }
}

/// The first of values.
fn first_of(values: Vec<Value>) -> Option<Value>
    ensures { result ≡ first_of (value_list values.items) }
{
    values.into_iter().next()
}

impl World for TableWorld {
    ghost use Rattle.std.proofs.Common.{ap};
    ghost use Rattle.isle_values.specs.Worlds.Tables.{constructed, extracted};

    ghost constructs = { constructed };

    ghost extracts = { extracted };

    ghost step = { λ old term args answer new. (answer ≡ constructed old term args) × (new ≡ old) };

    ghost keeps = { λ world next term args answer made. (ap constructed made.1, ap extracted made.1) };

    fn construct(
        &self,
        alloc: Global,
        term: &str,
        args: &[Value],
    ) -> Result<Option<Value>, AllocError> {
        let answer = self.made(alloc, term, args)?;
        Ok(answer)
    }

    fn extract(
        &self,
        alloc: Global,
        term: &str,
        arg: &Value,
    ) -> Result<Option<Vec<Value>>, AllocError> {
        let call = [arg.clone()?];
        let answer = self.answer(alloc, Side::Extractor, term, &call)?;
        Ok(answer)
    }

    fn effect(
        &mut self,
        alloc: Global,
        term: &str,
        args: &[Value],
    ) -> Result<Option<Value>, AllocError> {
        let answer = self.made(alloc, term, args)?;
        Ok(answer)
    }
}
