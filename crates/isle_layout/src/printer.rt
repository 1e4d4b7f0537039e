//! Trees as text.
ghost use Rattle.std.specs.Prelude.{◌≡◌, ◌↔◌, All, ℕ, ◌+◌, Bool, List, ◌++◌, ◌∷◌, [], true, false, replicate, IfOk, IfErr, string_bytes, codes};
ghost use Rattle.std.specs.List.{list_any};
ghost use Rattle.std.specs.Fmt.{char_count};
ghost use Rattle.std.specs.Slice.Iter.{iter_rest};
ghost use Rattle.isle_layout.specs.SExprShape.{sexpr_of, sexprs_of};
ghost use Rattle.isle_layout.specs.SExprTree.{sexpr_list};
ghost use Rattle.isle_layout.specs.Inside.SExprInnermost.{innermost, names_text};
ghost use Rattle.isle_layout.specs.Layout.{one_line, one_line_length, stays_on_one_line, layout, layouts, broken, line, fits_of, fits_of_all, within, sum_within};
ghost use Rattle.isle_layout.specs.DefSpellings.{OnFault, def_has_macro_arg};
ghost use Rattle.isle_layout.specs.Prints.{print_of};
ghost use Rattle.isle_layout.specs.ReadsBack.{IsReadAs};
ghost use Rattle.isle_layout.specs.Writable.{writable_def};

use crate::sexpr::SExpr;
use crate::to_sexpr::{HasMacroArg, ToSExpr};
use isle_syntax::Refusal;
use isle_syntax::ast::Def;
use std::alloc::{AllocError, Global};
use std::slice::Iter;

/// Definitions laid out at a width, each followed by one newline. A `MacroArg` in one of them is refused.
pub fn print(alloc: Global, defs: &[Def], width: usize) -> Result<String, Refusal<HasMacroArg>>
    ensures text { IfOk result (λ text. string_bytes text ≡ print_of width defs.now) }
    ensures reads_back { IfOk result (λ text.
        IsReadAs (string_bytes text) defs.now ↔ All (λ def. writable_def def ≡ true) defs.now) }
    ensures no_macro_arg { IfOk result (λ text. list_any def_has_macro_arg defs.now ≡ false) }
    ensures fault { IfErr result (λ refusal. OnFault refusal (list_any def_has_macro_arg defs.now ≡ true)) }
{
    let mut text = String::new(alloc);
    for def in defs {
        let printed = print_node(alloc, def, width)?;
        text.push_str(printed.as_str())?;
        text.push('\n')?;
    }
    Ok(text)
}

/// A tree laid out at a width, from the start of a line. A `MacroArg` in it is refused.
pub fn print_node<T: ToSExpr>(
    alloc: Global,
    node: &T,
    width: usize,
) -> Result<String, Refusal<HasMacroArg>>
    ensures text { IfOk result (λ text. string_bytes text ≡ layout width 0 (T.sexpr node.now)) }
    ensures no_macro_arg { IfOk result (λ text. T.macro_arg node.now ≡ false) }
    ensures fault { IfErr result (λ refusal. OnFault refusal (T.macro_arg node.now ≡ true)) }
{
    Ok(node.to_sexpr(alloc)?.print(alloc, width)?)
}

// A first pass finds which lists stay on one line, and a second one writes. So the length of each list is found once.
impl SExpr {
    /// This S-expression laid out at a width, from the start of a line.
    pub fn print(&self, alloc: Global, width: usize) -> Result<String, AllocError>
        ensures { IfOk result (λ text. string_bytes text ≡ layout width 0 (sexpr_of self.now)) }
    {
        let mut fits = Vec::new(alloc);
        measure(self, width, &mut fits)?;
        let mut out = String::new(alloc);
        let mut margin = String::new(alloc);
        write_at(&mut out, self, &mut margin, &mut fits.iter())?;
        Ok(out)
    }

    /// What a chain of bindings binds, or the S-expression itself where it is no binding.
    fn innermost(&self) -> &SExpr
        ensures { sexpr_of result.now ≡ innermost (sexpr_of self.now) }
    {
        let mut at = self;
        while let SExpr::Binding(_, below) = at {
            at = below.get();
        }
        at
    }

    /// How many characters the names of a chain of bindings take, each with its `@`, or `None` where they are more than the
    /// width.
    fn names_length(&self, width: usize) -> Option<usize>
        ensures { result ≡ within width (char_count (names_text (sexpr_of self.now))) }
    {
        let mut length = Some(0);
        let mut at = self;
        while let SExpr::Binding(name, below) = at {
            length = sum_within(width, length, text_length(width, name.as_str()));
            length = sum_within(width, length, at_most(width, 3));
            at = below.get();
        }
        length
    }

    /// Writes the names of a chain of bindings, each with its `@`.
    fn write_names(&self, out: &mut String) -> Result<(), AllocError>
        ensures { IfOk result (λ done. string_bytes out.new
            ≡ string_bytes out.old ++ names_text (sexpr_of self.now)) }
    {
        let mut at = self;
        while let SExpr::Binding(name, below) = at {
            out.push_str(name.as_str())?;
            out.push_str(" @ ")?;
            at = below.get();
        }
        Ok(())
    }
}

/// A length, or `None` where it is above the width.
pub(crate) fn at_most(width: usize, length: usize) -> Option<usize>
    ensures { result ≡ within width length }
{
    if length <= width { Some(length) } else { None }
}

/// The sum of two lengths, or `None` where it is above the width.
pub(crate) fn sum_within(width: usize, first: Option<usize>, second: Option<usize>) -> Option<usize>
    ensures exact { result ≡ sum_within width first second }
    ensures sum { (m n : ℕ) → first ≡ within width m → second ≡ within width n → result ≡ within width (m + n) }
{
    match (first, second) {
        (Some(first), Some(second)) => match first.checked_add(second) {
            Some(sum) => at_most(width, sum),
            None => None,
        },
        _ => None,
    }
}

/// How many characters a text has, or `None` where they are more than the width.
pub(crate) fn text_length(width: usize, text: &str) -> Option<usize>
    ensures { result ≡ within width (char_count text.now) }
{
    at_most(width, text.chars().count())
}

/// Whether a list of these items stays on one line, where it has this length.
fn stays_on_one_line(length: Option<usize>, items: &[SExpr]) -> bool
    ensures { (width : ℕ) → length ≡ within width (one_line_length (sexpr_list (sexprs_of items.now)))
        → result ≡ stays_on_one_line width (sexprs_of items.now) }
{
    length.is_some() || items.len() < 2
}

/// How many characters an S-expression has on one line, or `None` where they are more than the width. For each list, it
/// pushes whether it stays on one line, before what it pushes for those below it; below one that does it pushes nothing.
#[cycle(measure)]
fn measure(sexpr: &SExpr, width: usize, fits: &mut Vec<bool>) -> Result<Option<usize>, AllocError>
    ensures length { IfOk result (λ length. length ≡ within width (one_line_length (sexpr_of sexpr.now))) }
    ensures fits { IfOk result (λ length. fits.new.items ≡ fits.old.items ++ fits_of width (sexpr_of sexpr.now)) }
{
    let names = sexpr.names_length(width);
    match sexpr.innermost() {
        SExpr::Atom(text) => {
            let text = text_length(width, text.as_str());
            Ok(sum_within(width, names, text))
        }
        SExpr::Binding(..) => unreachable!(),
        SExpr::List(items) => {
            let list = measure_list(items.as_slice(), width, fits)?;
            Ok(sum_within(width, names, list))
        }
    }
}

/// The same of a list.
#[cycle(measure)]
#[tactic(auto, using(crate::proofs::Layouts::SExprSizes::most_sexpr_size))]
fn measure_list(
    items: &[SExpr],
    width: usize,
    fits: &mut Vec<bool>,
) -> Result<Option<usize>, AllocError>
    ensures length { IfOk result (λ length. length ≡ within width (one_line_length (sexpr_list (sexprs_of items.now)))) }
    ensures fits { IfOk result (λ length. fits.new.items
        ≡ fits.old.items ++ fits_of width (sexpr_list (sexprs_of items.now))) }
{
    let at = fits.len();
    fits.push(false)?;
    // The parentheses, and the spaces between the items.
    let mut length = at_most(width, items.len().max(1) + 1);
    for item in items {
        length = sum_within(width, length, measure(item, width, fits)?);
    }
    if stays_on_one_line(length, items) {
        fits.truncate(at);
        fits.push(true)?;
    }
    Ok(length)
}

/// Writes an S-expression on one line.
#[cycle(write_one_line)]
fn write_one_line(out: &mut String, sexpr: &SExpr) -> Result<(), AllocError>
    ensures { IfOk result (λ done. string_bytes out.new ≡ string_bytes out.old ++ one_line (sexpr_of sexpr.now)) }
{
    sexpr.write_names(out)?;
    match sexpr.innermost() {
        SExpr::Atom(text) => out.push_str(text.as_str()),
        SExpr::Binding(..) => unreachable!(),
        SExpr::List(items) => write_list_on_one_line(out, items.as_slice()),
    }
}

/// Writes a list on one line.
#[cycle(write_one_line)]
#[tactic(auto, using(crate::proofs::Layouts::SExprSizes::most_sexpr_size))]
fn write_list_on_one_line(out: &mut String, items: &[SExpr]) -> Result<(), AllocError>
    ensures { IfOk result (λ done. string_bytes out.new
        ≡ string_bytes out.old ++ one_line (sexpr_list (sexprs_of items.now))) }
{
    out.push('(')?;
    for (i, item) in items.iter().enumerate() {
        if i > 0 {
            out.push(' ')?;
        }
        write_one_line(out, item)?;
    }
    out.push(')')
}

/// Starts a new line with a margin.
fn write_line(out: &mut String, margin: &str) -> Result<(), AllocError>
    ensures { IfOk result (λ done. (spaces : ℕ) → margin.now ≡ replicate spaces 32
        → string_bytes out.new ≡ string_bytes out.old ++ line spaces) }
{
    out.push('\n')?;
    out.push_str(margin)
}

/// Whether the next list fits on one line.
fn next_fit(fits: &mut Iter<'_, bool>) -> bool
    ensures { (fit : Bool) (rest : List Bool) → iter_rest fits.old ≡ fit ∷ rest
        → (result ≡ fit) × (iter_rest fits.new ≡ rest) }
{
    matches!(fits.next(), Some(true))
}

/// Writes an S-expression at an indentation, of which `margin` has the spaces, and takes which of its lists fit on one line, as
/// `measure` pushes them.
#[cycle(write_at)]
fn write_at(
    out: &mut String,
    sexpr: &SExpr,
    margin: &mut String,
    fits: &mut Iter<'_, bool>,
) -> Result<(), AllocError>
    ensures margin { IfOk result (λ done. string_bytes margin.new ≡ string_bytes margin.old) }
    ensures written { IfOk result (λ done. (width indentation : ℕ) (rest : List Bool)
        → string_bytes margin.old ≡ replicate indentation 32
        → iter_rest fits.old ≡ fits_of width (sexpr_of sexpr.now) ++ rest
        → (string_bytes out.new ≡ string_bytes out.old ++ layout width indentation (sexpr_of sexpr.now))
        × (iter_rest fits.new ≡ rest)) }
{
    sexpr.write_names(out)?;
    match sexpr.innermost() {
        SExpr::Atom(text) => out.push_str(text.as_str()),
        SExpr::Binding(..) => unreachable!(),
        SExpr::List(items) => {
            if next_fit(fits) {
                write_list_on_one_line(out, items.as_slice())
            } else {
                write_broken_list(out, items.as_slice(), margin, fits)
            }
        }
    }
}

/// Writes a list with each item but the first on a line of its own.
#[cycle(write_at)]
#[tactic(auto, using(crate::proofs::Layouts::SExprSizes::most_sexpr_size))]
fn write_broken_list(
    out: &mut String,
    items: &[SExpr],
    margin: &mut String,
    fits: &mut Iter<'_, bool>,
) -> Result<(), AllocError>
    ensures margin { IfOk result (λ done. string_bytes margin.new ≡ string_bytes margin.old) }
    ensures written { IfOk result (λ done. (width indentation : ℕ) (rest : List Bool)
        → string_bytes margin.old ≡ replicate indentation 32
        → iter_rest fits.old ≡ fits_of_all width (sexprs_of items.now) ++ rest
        → (string_bytes out.new ≡ string_bytes out.old ++ broken indentation (layouts width (indentation + 4) (sexprs_of items.now)))
        × (iter_rest fits.new ≡ rest)) }
{
    let outer = margin.len();
    margin.push_str("    ")?;
    out.push('(')?;
    for (i, item) in items.iter().enumerate() {
        if i > 0 {
            write_line(out, margin.as_str())?;
        }
        write_at(out, item, margin, fits)?;
    }
    margin.truncate(outer);
    write_line(out, margin.as_str())?;
    out.push(')')
}
