//! Lists of which a copy shares the rows in which it differs in nothing.
ghost use Rattle.std.specs.Prelude.{◌≡◌, ◌<◌, length, map, slice_get, slice_index_or, slice_set, IfOk, option_copied};
ghost use Rattle.isle_blocks.specs.Inside.Trees.Work.{relabel};

use std::alloc::{AllocError, Global};
use std::marker::Model;
use std::rc::Rc;

/// How many items a row has, but for the last.
const ROW: usize = 128;

/// A list of items in rows. A copy shares the rows, and each row is copied where an item of it is set.
#[derive(Drop)]
pub(crate) struct Table<T> {
    rows: Vec<Rc<Vec<T>>>,
}

impl<T> Model for Table<T> {
    ghost use Rattle.std.specs.Prelude.{List, map};
    ghost use Rattle.isle_blocks.specs.Inside.Trees.Tables.{AreRows, joined};

    ghost Value = { List T };

    ghost view = { λ t. joined (map (λ r. r.value.items) t.rows.items) };

    ghost invariant = { λ t. AreRows (map (λ r. r.value.items) t.rows.items) };
}

impl<T: Copy> Table<T> {
    /// A list of its own rows.
    pub(crate) fn from_slice(alloc: Global, items: &[T]) -> Result<Table<T>, AllocError>
        ensures { IfOk result (λ t. t ≡ items.now) }
    {
        let mut rows = Vec::new(alloc);
        let mut at = 0;
        'rows: while at < items.len() {
            let end = at + ROW.min(items.len() - at);
            rows.push(new_row(alloc, &items[at..end])?)?;
            at = end;
        }
        Ok(Table { rows })
    }

    /// The item at a place.
    pub(crate) fn get(&self, place: usize) -> Option<T>
        ensures { result ≡ slice_get self.now place }
    {
        match row_at(&self.rows, place / ROW) {
            Some(row) => item_at(row.as_slice(), place % ROW),
            None => None,
        }
    }

    /// The item at a place, or this one where there is none.
    pub(crate) fn get_or(&self, place: usize, other: T) -> T
        ensures { result ≡ slice_index_or self.now place other }
    {
        match self.get(place) {
            Some(item) => item,
            None => other,
        }
    }

    /// Sets an item.
    pub(crate) fn set(&mut self, place: usize, item: T) -> Result<(), AllocError>
        requires { place < length self.old }
        ensures { IfOk result (λ _. self.new ≡ slice_set self.old place item) }
    {
        set_item(&mut self.rows[place / ROW], place % ROW, item)?;
        Ok(())
    }

    /// The same list.
    pub(crate) fn copy(&self) -> Result<Table<T>, AllocError>
        ensures { IfOk result (λ t. t ≡ self.now) }
    {
        let rows = self.rows.clone()?;
        Ok(Table { rows })
    }
}

/// Sets an item of a row: in place where no other list has the row.
fn set_item<T: Copy>(row: &mut Rc<Vec<T>>, place: usize, item: T) -> Result<(), AllocError>
    requires { place < length row.old.value.items }
    ensures set { IfOk result (λ _. row.new.value.items ≡ slice_set row.old.value.items place item) }
    ensures size { length row.new.value.items ≡ length row.old.value.items }
{
    match Rc::get_mut(row) {
        Some(items) => {
            items[place] = item;
            Ok(())
        }
        None => set_anew(row, place, item),
    }
}

/// Sets an item of a row in a copy of it.
fn set_anew<T: Copy>(row: &mut Rc<Vec<T>>, place: usize, item: T) -> Result<(), AllocError>
    requires { place < length row.old.value.items }
    ensures set { IfOk result (λ _. row.new.value.items ≡ slice_set row.old.value.items place item) }
    ensures size { length row.new.value.items ≡ length row.old.value.items }
{
    let alloc = *row.allocator();
    let mut items = Vec::from_slice(alloc, row.as_slice())?;
    items[place] = item;
    *row = Rc::new(alloc, items)?;
    Ok(())
}

fn row_at<T>(rows: &[Rc<Vec<T>>], row: usize) -> Option<&Rc<Vec<T>>>
    ensures { option_copied result ≡ slice_get rows.now row }
{
    rows.get(row)
}

fn item_at<T: Copy>(items: &[T], place: usize) -> Option<T>
    ensures { result ≡ slice_get items.now place }
{
    items.get(place).copied()
}

/// A row of these items.
fn new_row<T: Copy>(alloc: Global, items: &[T]) -> Result<Rc<Vec<T>>, AllocError>
    ensures { IfOk result (λ row. row.value.items ≡ items.now) }
{
    let row = Rc::new(alloc, Vec::from_slice(alloc, items)?)?;
    Ok(row)
}

fn relabel(label: usize, from: usize, to: usize) -> usize
    ensures { result ≡ relabel from to label }
{
    if label == from { to } else { label }
}

/// A row with a label in the place of another.
fn relabel_row(
    alloc: Global,
    row: &[usize],
    from: usize,
    to: usize,
) -> Result<Rc<Vec<usize>>, AllocError>
    ensures { IfOk result (λ new. new.value.items ≡ map (relabel from to) row.now) }
{
    let labels = row.iter().map(|l| relabel(*l, from, to)).collect(alloc)?;
    let row = Rc::new(alloc, labels)?;
    Ok(row)
}

impl Table<usize> {
    /// The list with a label in the place of another.
    pub(crate) fn relabeled(
        &self,
        alloc: Global,
        from: usize,
        to: usize,
    ) -> Result<Table<usize>, AllocError>
        ensures { IfOk result (λ t. t ≡ map (relabel from to) self.now) }
    {
        let mut rows = Vec::new(alloc);
        for row in &self.rows {
            rows.push(relabel_row(alloc, row.as_slice(), from, to)?)?;
        }
        Ok(Table { rows })
    }
}
