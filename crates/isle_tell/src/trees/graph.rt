//! What is drawn of a tree: a node a step, an edge for each way to one. Its lines are written one after another, so that no stack is needed for
//! how deep it nests.
ghost use Rattle.std.specs.Prelude.{◌≡◌, ◌++◌, [], ℕ, IfOk, OnOk, String as StringShown, string_bytes};
ghost use Rattle.std.specs.Global.{Global};
ghost use Rattle.std.specs.Option.{option_copied, option_map_or};
ghost use Rattle.isle_blocks.specs.Trees.Views.{shown_steps};
ghost use Rattle.isle_tell.specs.declared.trees.graph.Branch.TheVariants.{Arms as arms_branch, Steps as steps_branch};
ghost use Rattle.isle_tell.specs.Inside.TreeTexts.DotParts.{DrawsPiece, behind_graph, branch_graph, branch_nodes, branch_pieces, check_label, check_node, drawn};
ghost use Rattle.isle_tell.specs.Inside.TreeTexts.DotParts.{nodes_behind, shape_words};
ghost use Rattle.isle_tell.specs.TreeTexts.DotSteps.{Drawn, by_words, edge_line, equal_label, rule_label, start, steps_graph, test_words, way_line};
ghost use Rattle.isle_tell.specs.Inside.TreeTexts.Parts.{pieces_behind};

use crate::trees::names::{place_text, symbol_name, type_name, variant_name};
use crate::trees::paths::{Table, expression};
use crate::trees::quoted::quoted;
use isle_ast::files::Files;
use isle_blocks::{Arms, BindingId, Constraint, ControlFlow, Rule, Steps};
use isle_program::Program;
use std::alloc::{AllocError, Global};

/// How one comes to a step.
#[derive(Clone, Copy)]
pub(crate) enum By {
    /// It is the first one of its tree.
    Start,
    /// A test passes.
    Test(Constraint),
    /// Two sites are equal.
    Equal,
    /// A multi call gives a value.
    Value,
    /// What is behind the step before it is over.
    Else,
}

/// From which node one comes to a step, and how.
#[derive(Clone, Copy)]
pub(crate) struct Way {
    pub from: usize,
    pub by: By,
}

/// What is still to be drawn.
#[derive(Clone, Copy)]
pub(crate) enum Branch<'a> {
    Steps(Way, Steps<'a>),
    Arms(usize, Arms<'a>),
}

/// What a tree is drawn from: the number of its term, the rules, and what expressions of sites are written from.
#[derive(Clone, Copy)]
pub(crate) struct Scene<'a> {
    pub term: usize,
    pub rules: &'a [Rule],
    pub table: Table<'a>,
}

/// What an arm's test asks for.
fn test_words(alloc: Global, program: &Program, test: &Constraint) -> Result<String, AllocError>
    ensures { IfOk result (λ text. string_bytes text ≡ test_words program.now test.now) }
{
    match test {
        Constraint::Variant { ty, variant, .. } => {
            String::from_str(alloc, variant_name(program, *ty, *variant))
        }
        Constraint::Struct { ty, .. } => String::from_str(alloc, type_name(program, *ty)),
        Constraint::ConstBool { val, .. } => format!(in alloc; "{val}"),
        Constraint::ConstInt { val, .. } => format!(in alloc; "{val}"),
        Constraint::ConstPrim { val } => {
            let name = symbol_name(program, *val);
            format!(in alloc; "${name}")
        }
        Constraint::Some => String::from_str(alloc, "some"),
    }
}

/// How an edge is drawn.
fn by_words(alloc: Global, program: &Program, by: By) -> Result<String, AllocError>
    ensures { IfOk result (λ text. string_bytes text ≡ by_words program.now by) }
{
    match by {
        By::Start => Ok(String::new(alloc)),
        By::Test(test) => {
            let words = test_words(alloc, program, &test)?;
            let label = quoted(alloc, words.as_str())?;
            format!(in alloc; " [label={label}]")
        }
        By::Equal => String::from_str(alloc, " [label=\"yes\"]"),
        By::Value => String::from_str(alloc, " [label=\"each\"]"),
        By::Else => String::from_str(alloc, " [style=dashed]"),
    }
}

/// The line of an edge.
fn edge_line(
    alloc: Global,
    program: &Program,
    term: usize,
    way: Way,
    to: usize,
) -> Result<String, AllocError>
    ensures { IfOk result (λ text. string_bytes text ≡ edge_line program.now term way to) }
{
    let words = by_words(alloc, program, way.by)?;
    let from = way.from;
    format!(in alloc; "  t{term}_{from} -> t{term}_{to}{words};\n")
}

/// The place and the name of a rule.
fn rule_label(
    alloc: Global,
    program: &Program,
    files: &Files,
    rule: &Rule,
) -> Result<String, AllocError>
    ensures { IfOk result (λ text. string_bytes text ≡ rule_label program.now files.now rule.now) }
{
    let place = place_text(alloc, files, rule.pos)?;
    match rule.name {
        Some(sym) => {
            let name = symbol_name(program, sym);
            format!(in alloc; "{place} {name}")
        }
        None => Ok(place),
    }
}

/// The label of a step that returns.
fn return_label(
    alloc: Global,
    program: &Program,
    files: &Files,
    rule: Option<&Rule>,
) -> Result<String, AllocError>
    ensures { IfOk result (λ text. string_bytes text ≡ option_map_or (rule_label program.now files.now) (option_copied rule.entry) []) }
{
    match rule {
        Some(rule) => rule_label(alloc, program, files, rule),
        None => Ok(String::new(alloc)),
    }
}

/// What a step asks, or the rule that it returns.
fn check_label(
    alloc: Global,
    files: &Files,
    scene: &Scene<'_>,
    check: ControlFlow<'_>,
) -> Result<String, AllocError>
    ensures { IfOk result (λ text. string_bytes text ≡ check_label (drawn files.now scene.now) check.entry) }
{
    let table = &scene.table;
    match check {
        ControlFlow::Match { source, .. } => expression(alloc, table, source),
        ControlFlow::Equal { a, b, .. } => equal_label(alloc, table, a, b),
        ControlFlow::Loop { result, .. } => expression(alloc, table, result),
        ControlFlow::Return { rule, .. } => {
            return_label(alloc, table.program, files, scene.rules.get(rule))
        }
    }
}

/// Two sites that are compared.
fn equal_label(
    alloc: Global,
    table: &Table<'_>,
    a: BindingId,
    b: BindingId,
) -> Result<String, AllocError>
    ensures { IfOk result (λ text. string_bytes text ≡ equal_label table.now.program.now table.now.types.now table.now.sites.now a b) }
{
    let one = expression(alloc, table, a)?;
    let other = expression(alloc, table, b)?;
    format!(in alloc; "{one} = {other}")
}

/// The shape of a node: a box where a rule returns.
fn shape_words(check: ControlFlow<'_>) -> &'static str
    ensures { result.now ≡ shape_words check.entry }
{
    match check {
        ControlFlow::Match { .. } => "",
        ControlFlow::Equal { .. } => "",
        ControlFlow::Loop { .. } => "",
        ControlFlow::Return { .. } => "shape=box, ",
    }
}

/// The line of a step's node.
fn node_line(
    alloc: Global,
    files: &Files,
    scene: &Scene<'_>,
    number: usize,
    check: ControlFlow<'_>,
) -> Result<String, AllocError>
    ensures { IfOk result (λ text. string_bytes text ≡ check_node (drawn files.now scene.now) number check.entry) }
{
    let words = check_label(alloc, files, scene, check)?;
    let label = quoted(alloc, words.as_str())?;
    let shape = shape_words(check);
    let term = scene.term;
    format!(in alloc; "  t{term}_{number} [{shape}label={label}];\n")
}

/// What is behind a check, if anything is.
fn branch_behind<'a>(number: usize, check: ControlFlow<'a>) -> Option<Branch<'a>>
    ensures graph { (d : Drawn) (k : ℕ) → option_map_or (branch_graph d k) result [] ≡ behind_graph d number k check.entry }
    ensures nodes { option_map_or branch_nodes result 0 ≡ nodes_behind check.entry }
    ensures pieces { option_map_or branch_pieces result 0 ≡ pieces_behind check.entry }
{
    match check {
        ControlFlow::Match { arms, .. } => Some(Branch::Arms(number, arms)),
        ControlFlow::Equal { body, .. } => {
            let by = By::Equal;
            Some(Branch::Steps(Way { from: number, by }, body))
        }
        ControlFlow::Loop { body, .. } => {
            let by = By::Value;
            Some(Branch::Steps(Way { from: number, by }, body))
        }
        ControlFlow::Return { .. } => None,
    }
}

/// Draws the node of a step, and the edge to it.
fn push_step(
    alloc: Global,
    files: &Files,
    scene: &Scene<'_>,
    way: Way,
    number: usize,
    check: ControlFlow<'_>,
    text: &mut String,
) -> Result<(), AllocError>
    ensures { OnOk result (string_bytes text.new ≡ string_bytes text.old
        ++ (check_node (drawn files.now scene.now) number check.entry ++ way_line (drawn files.now scene.now) way number)) }
{
    let node = node_line(alloc, files, scene, number, check)?;
    let edge = edge_line(alloc, scene.table.program, scene.term, way, number)?;
    text.push_str(node.as_str())?;
    text.push_str(edge.as_str())
}

/// Draws the first step of steps, and gives the number of the next node. What is behind its check is left, and the steps after it.
fn advance_steps<'a>(
    alloc: Global,
    files: &Files,
    scene: &Scene<'_>,
    way: Way,
    steps: Steps<'a>,
    number: usize,
    branches: &mut Vec<Branch<'a>>,
    text: &mut String,
) -> Result<usize, AllocError>
    ensures { IfOk result (λ next. DrawsPiece (drawn files.now scene.now) (steps_branch way steps.entry)
        branches.old.items branches.new.items text.old text.new number next) }
{
    let Some((step, rest)) = steps.next() else {
        return Ok(number);
    };
    let next = number.checked_add(1).ok_or(AllocError)?;
    push_step(alloc, files, scene, way, number, step.check, text)?;
    let by = By::Else;
    branches.push(Branch::Steps(Way { from: number, by }, rest))?;
    if let Some(behind) = branch_behind(number, step.check) {
        branches.push(behind)?;
    }
    Ok(next)
}

/// Goes on to the first arm of arms: its steps are left, and the arms after it.
fn advance_arms<'a>(
    from: usize,
    arms: Arms<'a>,
    branches: &mut Vec<Branch<'a>>,
) -> Result<(), AllocError>
    ensures { (d : Drawn) (text : StringShown Global) (number : ℕ) → OnOk result (DrawsPiece d (arms_branch from arms.entry)
        branches.old.items branches.new.items text text number number) }
{
    let Some((arm, rest)) = arms.next() else {
        return Ok(());
    };
    let by = By::Test(arm.constraint);
    branches.push(Branch::Arms(from, rest))?;
    branches.push(Branch::Steps(Way { from, by }, arm.body))?;
    Ok(())
}

/// Draws a piece of a branch, and gives the number of the next node; the rest of it is left.
fn advance<'a>(
    alloc: Global,
    files: &Files,
    scene: &Scene<'_>,
    branch: Branch<'a>,
    number: usize,
    branches: &mut Vec<Branch<'a>>,
    text: &mut String,
) -> Result<usize, AllocError>
    ensures { IfOk result (λ next. DrawsPiece (drawn files.now scene.now) branch.entry
        branches.old.items branches.new.items text.old text.new number next) }
{
    match branch {
        Branch::Steps(way, steps) => {
            advance_steps(alloc, files, scene, way, steps, number, branches, text)
        }
        Branch::Arms(from, arms) => {
            advance_arms(from, arms, branches)?;
            Ok(number)
        }
    }
}

/// The nodes of steps and of what is behind them, with the edges to them.
pub(crate) fn steps_graph(
    alloc: Global,
    files: &Files,
    scene: &Scene<'_>,
    steps: Steps<'_>,
) -> Result<String, AllocError>
    ensures { IfOk result (λ text. string_bytes text ≡ steps_graph (drawn files.now scene.now) start 1 (shown_steps steps.entry).tree) }
{
    let mut text = String::new(alloc);
    let mut branches = Vec::new(alloc);
    let mut number = 1;
    let by = By::Start;
    branches.push(Branch::Steps(Way { from: 0, by }, steps))?;
    'branches: while let Some(branch) = branches.pop() {
        number = advance(
            alloc,
            files,
            scene,
            branch,
            number,
            &mut branches,
            &mut text,
        )?;
    }
    Ok(text)
}
