//! The world of a file, and the calls for which it has no entry of their own.
ghost use Rattle.std.specs.Prelude.{◌≡◌};
ghost use Rattle.isle_rules.specs.Values.{value_list};
ghost use Rattle.isle_values.specs.Worlds.Entries.{part_shown};

use crate::answer::{push_call, push_value};
use isle_run::{Side, TableWorld, Value, World};
use std::alloc::{AllocError, Global};
use std::cell::RefCell;
use std::collections::BTreeSet;
use std::marker::Model;

/// A table world that keeps the calls for which it has no entry of their own, where that is asked for.
#[derive(Drop)]
pub struct WatchedTable {
    table: TableWorld,
    asked: bool,
    unanswered: RefCell<BTreeSet<String>>,
}

impl Model for WatchedTable {
    ghost use Rattle.std.specs.Prelude.{List};
    ghost use Rattle.std.specs.Coded.{coded_list};
    ghost use Rattle.isle_values.specs.Worlds.EntryCode.{entry_tree_code};
    ghost use Rattle.isle_values.specs.Worlds.Entries.{EntryTree};

    ghost Value = { List EntryTree };

    ghost coded = { coded_list entry_tree_code };

    ghost view = { λ world. world.table };
}

/// The line `# unanswered (constructor TERM (ARG ..) ..)`, or of an extractor `# unanswered (extractor TERM ARG ..)`: how the entry of a call
/// begins.
fn unanswered_line(
    alloc: Global,
    side: Side,
    term: &str,
    call: &[Value],
) -> Result<String, AllocError> {
    let mut line = String::new(alloc);
    match side {
        Side::Constructor => {
            line.push_str("# unanswered (constructor ")?;
            line.push_str(term)?;
            line.push_str(" (")?;
            push_values(alloc, &mut line, call)?;
            line.push_str(") ..)\n")?;
        }
        Side::Extractor => {
            line.push_str("# unanswered (extractor ")?;
            line.push_str(term)?;
            line.push_str(" ")?;
            push_values(alloc, &mut line, call)?;
            line.push_str(" ..)\n")?;
        }
    }
    Ok(line)
}

/// Writes values behind a text, with a space between them.
fn push_values(alloc: Global, line: &mut String, values: &[Value]) -> Result<(), AllocError> {
    let mut between = "";
    for value in values {
        line.push_str(between)?;
        push_value(alloc, line, value)?;
        between = " ";
    }
    Ok(())
}

impl WatchedTable {
    /// The world of a table.
    pub fn new(alloc: Global, table: TableWorld, asked: bool) -> WatchedTable
        ensures { result ≡ table }
    {
        WatchedTable {
            table,
            asked,
            unanswered: RefCell::new(BTreeSet::new(alloc)),
        }
    }

    /// Keeps a call, where it has no entry of its own and that is asked for.
    fn note(
        &self,
        alloc: Global,
        side: Side,
        term: &str,
        call: &[Value],
    ) -> Result<(), AllocError> {
        if !self.asked || self.table.has_entry(alloc, side, term, call)? {
            return Ok(());
        }
        let line = unanswered_line(alloc, side, term, call)?;
        match self.unanswered.try_borrow_mut() {
            Ok(mut lines) => {
                let _new = lines.insert(line)?;
                Ok(())
            }
            Err(_) => Err(AllocError),
        }
    }

    /// The lines of the calls that were kept, each once, in order.
    pub fn unanswered(&self, alloc: Global) -> Result<String, AllocError> {
        let mut text = String::new(alloc);
        let Ok(lines) = self.unanswered.try_borrow() else {
            return Err(AllocError);
        };
        for line in lines.iter() {
            text.push_str(line.as_str())?;
        }
        Ok(text)
    }
}

impl World for WatchedTable {
    ghost use Rattle.std.proofs.Common.{ap};
    ghost use Rattle.isle_values.specs.Worlds.Tables.{constructed, extracted};

    ghost constructs = { constructed };

    ghost extracts = { extracted };

    ghost step = { λ old term args answer new. (answer ≡ constructed old term args) × (new ≡ old) };

    ghost keeps = { λ world next term args answer made. (ap constructed made.1, ap extracted made.1) };

    fn construct(
        &self,
        alloc: Global,
        term: &str,
        args: &[Value],
    ) -> Result<Option<Value>, AllocError> {
        self.note(alloc, Side::Constructor, term, args)?;
        self.table.construct(alloc, term, args)
    }

    fn extract(
        &self,
        alloc: Global,
        term: &str,
        arg: &Value,
    ) -> Result<Option<Vec<Value>>, AllocError> {
        let call = [arg.clone()?];
        self.note(alloc, Side::Extractor, term, &call)?;
        self.table.extract(alloc, term, arg)
    }

    fn effect(
        &mut self,
        alloc: Global,
        term: &str,
        args: &[Value],
    ) -> Result<Option<Value>, AllocError> {
        self.note(alloc, Side::Constructor, term, args)?;
        self.table.effect(alloc, term, args)
    }
}
