//! Blocks laid out node by node: a loop over what is still to be laid out, so that no path of tests needs the native stack.
ghost use Rattle.std.specs.Prelude.{◌≡◌, ◌<◌, ◌++◌, ◌∷◌, [], ℕ, List, Some, length, drop, map, IfOk};
ghost use Rattle.isle_trees.specs.Builds.{Builds};
ghost use Rattle.isle_trees.specs.Ranking.{PartsAreLower};
ghost use Rattle.isle_trees.specs.Rules.{has};
ghost use Rattle.isle_trees.specs.Search.{AreMarked, IsInOrder};
ghost use Rattle.isle_blocks.specs.Rows.{numbers_of};
ghost use Rattle.isle_blocks.specs.declared.serializer.node.Node.TheVariants as nodes;
ghost use Rattle.isle_blocks.specs.declared.serializer.work.Task.TheVariants as tasks;
ghost use Rattle.isle_blocks.specs.declared.serializer.known.Test.TheVariants as kinds;
ghost use Rattle.isle_blocks.specs.Trees.Nodes.{Piece, first_steps, given, put, read};
ghost use Rattle.isle_blocks.specs.Inside.Trees.Builder.{IsFit, IsIndexOf, IsSerializable, rules_in, scope_of, test_shown};
ghost use Rattle.isle_blocks.specs.Inside.Trees.Marking.{AreReady};
ghost use Rattle.isle_blocks.specs.Inside.Trees.Work.{AreArms, AreOfRules, AreReturns, AreRules, IsFan, IsOpen, IsSplit, IsTask, Moves};
ghost use Rattle.isle_blocks.specs.Inside.Trees.Work.{WantsArms, WantsBlock};

use crate::constraint::Constraint;
use crate::ids::BindingId;
use crate::rule::Rule;
use crate::rule_set::RuleSet;
use crate::serializer::index::Index;
use crate::serializer::known::{Known, Test};
use crate::serializer::node::Node;
use crate::serializer::table::Table;
use isle_ast::Seq;
use std::alloc::{AllocError, Global};

/// Rules that are left, and what is known where they are.
#[derive(Drop)]
pub(crate) struct Open {
    pub(crate) left: Vec<usize>,
    pub(crate) known: Known,
    pub(crate) marks: Table<bool>,
    /// The sites that can be tested, among them all that the rules left test.
    pub(crate) ready: Vec<BindingId>,
}

/// What is still to be laid out.
#[derive(Drop)]
pub(crate) enum Task {
    Block(Open),
    /// The arms of a group, from a place in it on.
    Arms {
        site: BindingId,
        start: usize,
        place: Open,
    },
    End,
    NoArm,
}

impl RuleSet {
    /// The block of the rules left, node by node.
    pub(crate) fn lay_out(
        &self,
        alloc: Global,
        index: &Index,
        left: Vec<usize>,
        known: Known,
        marks: Table<bool>,
        ready: Vec<BindingId>,
    ) -> Result<Vec<Node>, AllocError>
        requires set { IsSerializable self.now }
        requires index { IsIndexOf self.now (length self.now.sites) index.now }
        requires fit { IsFit self.now (length self.now.sites) known }
        requires order { IsInOrder (rules_in self.now) left.items }
        requires rules { AreRules self.now left.items }
        requires size { length marks ≡ length self.now.sites }
        requires marked { AreMarked (rules_in self.now) left.items (scope_of self.now known) marks }
        requires ready { AreReady (rules_in self.now) left.items (scope_of self.now known) marks (numbers_of ready.items) }
        ensures builds { IfOk result (λ v. Builds (rules_in self.now) left.items (scope_of self.now known) (first_steps (read v.items []))) }
        ensures told { IfOk result (λ v. AreOfRules self.now v.items) }
    {
        let mut work = Vec::new(alloc);
        let mut nodes = Vec::new(alloc);
        self.push_body(left, known, marks, ready, &mut work)?;
        'work: while let Some(task) = work.pop() {
            self.advance(alloc, index, task, &mut work, &mut nodes)?;
        }
        Ok(nodes)
    }

    /// Lays out one node of what is to be done, or the returns of a block; what comes after it is to be done.
    fn advance(
        &self,
        alloc: Global,
        index: &Index,
        task: Task,
        work: &mut Vec<Task>,
        nodes: &mut Vec<Node>,
    ) -> Result<(), AllocError>
        requires set { IsSerializable self.now }
        requires index { IsIndexOf self.now (length self.now.sites) index.now }
        requires task { IsTask self.now task }
        ensures { IfOk result (λ _. Moves self.now task work.old.items work.new.items nodes.old.items nodes.new.items) }
    {
        match task {
            Task::Block(place) => self.advance_block(alloc, index, place, work, nodes),
            Task::Arms { site, start, place } => {
                self.advance_arms(alloc, index, site, start, place, work, nodes)
            }
            Task::End => {
                push_node(Node::End, nodes)?;
                Ok(())
            }
            Task::NoArm => {
                push_node(Node::NoArm, nodes)?;
                Ok(())
            }
        }
    }

    /// The best test of the rules left, or their returns.
    fn advance_block(
        &self,
        alloc: Global,
        index: &Index,
        place: Open,
        work: &mut Vec<Task>,
        nodes: &mut Vec<Node>,
    ) -> Result<(), AllocError>
        requires set { IsSerializable self.now }
        requires index { IsIndexOf self.now (length self.now.sites) index.now }
        requires place { IsOpen self.now place }
        ensures { IfOk result (λ _. Moves self.now (tasks.Block place) work.old.items work.new.items nodes.old.items nodes.new.items) }
    {
        match self.best(index, &place.left, &place.known, &place.marks, &place.ready) {
            None => {
                self.finish(alloc, place, nodes)?;
                Ok(())
            }
            Some(test) => {
                let (chosen, rest) = self.split(alloc, test, &place.left)?;
                self.step(alloc, index, test, place, chosen, rest, work, nodes)
            }
        }
    }

    /// The returns of a block where no test is left.
    fn finish(&self, alloc: Global, place: Open, nodes: &mut Vec<Node>) -> Result<(), AllocError>
        requires set { IsSerializable self.now }
        requires place { IsOpen self.now place }
        ensures { IfOk result (λ _. AreReturns self.now place.left.items (scope_of self.now place.known) nodes.old.items nodes.new.items) }
    {
        let left = place.left;
        let mut known = place.known;
        self.returns(alloc, &left, &mut known, nodes)?;
        Ok(())
    }

    /// The rules left return in order.
    fn returns(
        &self,
        alloc: Global,
        left: &[usize],
        known: &mut Known,
        nodes: &mut Vec<Node>,
    ) -> Result<(), AllocError>
        requires set { IsSerializable self.now }
        requires size { length known.old.emitted ≡ length self.now.sites }
        requires order { IsInOrder (rules_in self.now) left.now }
        requires rules { AreRules self.now left.now }
        ensures { IfOk result (λ _. AreReturns self.now left.now (scope_of self.now known.old) nodes.old.items nodes.new.items) }
    {
        for number in left {
            let rule = &self.rules()[*number];
            let order = self.return_order(alloc, rule, known)?;
            nodes.push(return_node(order, *number, rule))?;
        }
        nodes.push(Node::End)?;
        Ok(())
    }

    /// The node of the best test, and what is to be done behind it.
    fn step(
        &self,
        alloc: Global,
        index: &Index,
        test: Test,
        place: Open,
        chosen: Vec<usize>,
        rest: Vec<usize>,
        work: &mut Vec<Task>,
        nodes: &mut Vec<Node>,
    ) -> Result<(), AllocError>
        requires set { IsSerializable self.now }
        requires index { IsIndexOf self.now (length self.now.sites) index.now }
        requires split { IsSplit self.now place (test_shown test) chosen.items rest.items }
        ensures { IfOk result (λ _. Moves self.now (tasks.Block place) work.old.items work.new.items nodes.old.items nodes.new.items) }
    {
        match test {
            Test::Match(site) => self.step_match(alloc, site, place, chosen, rest, work, nodes),
            Test::Equal(a, b) => self.step_equal(alloc, a, b, place, chosen, rest, work, nodes),
            Test::Loop(site) => self.step_loop(
                alloc, index, site, place, chosen, rest, work, nodes,
            ),
        }
    }

    fn step_match(
        &self,
        alloc: Global,
        site: BindingId,
        place: Open,
        chosen: Vec<usize>,
        rest: Vec<usize>,
        work: &mut Vec<Task>,
        nodes: &mut Vec<Node>,
    ) -> Result<(), AllocError>
        requires set { IsSerializable self.now }
        requires split { IsSplit self.now place (test_shown (kinds.Match site)) chosen.items rest.items }
        ensures { IfOk result (λ _. Moves self.now (tasks.Block place) work.old.items work.new.items nodes.old.items nodes.new.items) }
    {
        let mut known = place.known;
        let marks = place.marks;
        let ready = place.ready;
        let mut order = Vec::new(alloc);
        self.emit(alloc, site, &mut known, &mut order)?;
        nodes.push(match_node(order, site))?;
        self.push_rest(rest, &known, &marks, &ready, work)?;
        let group = self.by_test(chosen, site)?;
        work.push(arms_task(site, group, known, marks, ready))?;
        Ok(())
    }

    fn step_equal(
        &self,
        alloc: Global,
        a: BindingId,
        b: BindingId,
        place: Open,
        chosen: Vec<usize>,
        rest: Vec<usize>,
        work: &mut Vec<Task>,
        nodes: &mut Vec<Node>,
    ) -> Result<(), AllocError>
        requires set { IsSerializable self.now }
        requires split { IsSplit self.now place (test_shown (kinds.Equal a b)) chosen.items rest.items }
        ensures { IfOk result (λ _. Moves self.now (tasks.Block place) work.old.items work.new.items nodes.old.items nodes.new.items) }
    {
        let mut known = place.known;
        let mut order = Vec::new(alloc);
        let both = [a, b];
        self.emit_each(alloc, &both, &mut known, &mut order)?;
        nodes.push(equal_node(order, a, b))?;
        self.push_rest(rest, &known, &place.marks, &place.ready, work)?;
        known.join(alloc, a, b)?;
        self.push_body(chosen, known, place.marks, place.ready, work)?;
        Ok(())
    }

    fn step_loop(
        &self,
        alloc: Global,
        index: &Index,
        site: BindingId,
        place: Open,
        chosen: Vec<usize>,
        rest: Vec<usize>,
        work: &mut Vec<Task>,
        nodes: &mut Vec<Node>,
    ) -> Result<(), AllocError>
        requires set { IsSerializable self.now }
        requires index { IsIndexOf self.now (length self.now.sites) index.now }
        requires split { IsSplit self.now place (test_shown (kinds.Loop site)) chosen.items rest.items }
        ensures { IfOk result (λ _. Moves self.now (tasks.Block place) work.old.items work.new.items nodes.old.items nodes.new.items) }
    {
        let mut known = place.known;
        known.release(site)?;
        let mut order = Vec::new(alloc);
        self.emit(alloc, site, &mut known, &mut order)?;
        nodes.push(loop_node(order, self.value(site)))?;
        let mut last = known.copy()?;
        last.release(site)?;
        self.push_rest(rest, &last, &place.marks, &place.ready, work)?;
        self.enter(index, &mut known, site, chosen[0])?;
        let mut marks = place.marks;
        let more = self.spread(alloc, index, &known, site, &mut marks)?;
        let ready = self.ready_past(alloc, index, &known, &marks, &place.ready, &more)?;
        self.push_body(chosen, known, marks, ready, work)?;
        Ok(())
    }

    /// The arm of the first test of a group, from a place on.
    fn advance_arms(
        &self,
        alloc: Global,
        index: &Index,
        site: BindingId,
        start: usize,
        place: Open,
        work: &mut Vec<Task>,
        nodes: &mut Vec<Node>,
    ) -> Result<(), AllocError>
        requires set { IsSerializable self.now }
        requires index { IsIndexOf self.now (length self.now.sites) index.now }
        requires fan { IsFan self.now site.0 start place }
        ensures { IfOk result (λ _. Moves self.now (tasks.Arms site start place) work.old.items work.new.items nodes.old.items nodes.new.items) }
    {
        let group = place.left;
        let mut known = place.known;
        let rule = group[start];
        let test = self.test_at(rule, site).unwrap();
        let one = self.run(alloc, &group, start, site, test)?;
        let bindings = self.fields(alloc, index, site, rule, test)?;
        nodes.push(arm_node(test, bindings))?;
        self.push_more(
            site,
            one.end,
            group,
            &known,
            &place.marks,
            &place.ready,
            work,
        )?;
        self.enter(index, &mut known, site, rule)?;
        let mut marks = place.marks;
        let more = self.spread(alloc, index, &known, site, &mut marks)?;
        let ready = self.ready_past(alloc, index, &known, &marks, &place.ready, &more)?;
        self.push_body(one.rules, known, marks, ready, work)?;
        Ok(())
    }

    /// A block of these rules is to be laid out.
    fn push_body(
        &self,
        left: Vec<usize>,
        known: Known,
        marks: Table<bool>,
        ready: Vec<BindingId>,
        work: &mut Vec<Task>,
    ) -> Result<(), AllocError>
        requires fit { IsFit self.now (length self.now.sites) known }
        requires order { IsInOrder (rules_in self.now) left.items }
        requires rules { AreRules self.now left.items }
        requires size { length marks ≡ length self.now.sites }
        requires marked { AreMarked (rules_in self.now) left.items (scope_of self.now known) marks }
        requires ready { AreReady (rules_in self.now) left.items (scope_of self.now known) marks (numbers_of ready.items) }
        ensures { IfOk result (λ _. WantsBlock self.now left.items (scope_of self.now known) work.old.items work.new.items) }
    {
        if left.is_empty() {
            push_task(Task::End, work)?;
            Ok(())
        } else {
            push_task(block_task(left, known, marks, ready), work)?;
            Ok(())
        }
    }

    /// The same, where what is known is used again.
    fn push_rest(
        &self,
        left: Vec<usize>,
        known: &Known,
        marks: &Table<bool>,
        ready: &Vec<BindingId>,
        work: &mut Vec<Task>,
    ) -> Result<(), AllocError>
        requires fit { IsFit self.now (length self.now.sites) known.now }
        requires order { IsInOrder (rules_in self.now) left.items }
        requires rules { AreRules self.now left.items }
        requires size { length marks.now ≡ length self.now.sites }
        requires marked { AreMarked (rules_in self.now) left.items (scope_of self.now known.now) marks.now }
        requires ready { AreReady (rules_in self.now) left.items (scope_of self.now known.now) marks.now (numbers_of ready.now.items) }
        ensures { IfOk result (λ _. WantsBlock self.now left.items (scope_of self.now known.now) work.old.items work.new.items) }
    {
        if left.is_empty() {
            push_task(Task::End, work)?;
            Ok(())
        } else {
            let known = known.copy()?;
            let marks = marks.copy()?;
            let ready = copy_ready(ready)?;
            push_task(block_task(left, known, marks, ready), work)?;
            Ok(())
        }
    }

    /// The arms after the first are to be laid out.
    fn push_more(
        &self,
        site: BindingId,
        start: usize,
        group: Vec<usize>,
        known: &Known,
        marks: &Table<bool>,
        ready: &Vec<BindingId>,
        work: &mut Vec<Task>,
    ) -> Result<(), AllocError>
        requires { AreArms self.now site.0 group.items known.now marks.now (numbers_of ready.now.items) }
        ensures { IfOk result (λ _. WantsArms self.now (drop start group.items) (scope_of self.now known.now) site.0 work.old.items work.new.items) }
    {
        if start < group.len() {
            let known = known.copy()?;
            let marks = marks.copy()?;
            let ready = copy_ready(ready)?;
            push_task(arms_from(site, start, group, known, marks, ready), work)?;
            Ok(())
        } else {
            push_task(Task::NoArm, work)?;
            Ok(())
        }
    }
}

fn copy_ready(ready: &Vec<BindingId>) -> Result<Vec<BindingId>, AllocError>
    ensures { IfOk result (λ v. v.items ≡ ready.now.items) }
{
    ready.clone()
}

fn push_node(node: Node, nodes: &mut Vec<Node>) -> Result<(), AllocError>
    ensures { IfOk result (λ _. nodes.new.items ≡ nodes.old.items ++ node ∷ []) }
{
    nodes.push(node)?;
    Ok(())
}

fn push_task(task: Task, work: &mut Vec<Task>) -> Result<(), AllocError>
    ensures { IfOk result (λ _. work.new.items ≡ work.old.items ++ task ∷ []) }
{
    work.push(task)?;
    Ok(())
}

fn match_node(binds: Vec<BindingId>, source: BindingId) -> Node
    ensures { result ≡ nodes.Match binds.items source }
{
    Node::Match {
        binds: Seq::new(binds),
        source,
    }
}

fn equal_node(binds: Vec<BindingId>, a: BindingId, b: BindingId) -> Node
    ensures { result ≡ nodes.Equal binds.items a b }
{
    Node::Equal {
        binds: Seq::new(binds),
        a,
        b,
    }
}

fn loop_node(binds: Vec<BindingId>, value: BindingId) -> Node
    ensures { result ≡ nodes.Loop binds.items value }
{
    Node::Loop {
        binds: Seq::new(binds),
        result: value,
    }
}

fn return_node(binds: Vec<BindingId>, number: usize, rule: &Rule) -> Node
    ensures { result ≡ nodes.Return binds.items number rule.now.pos rule.now.result }
{
    Node::Return {
        binds: Seq::new(binds),
        rule: number,
        pos: rule.pos,
        result: rule.result,
    }
}

fn arm_node(constraint: Constraint, bindings: Vec<Option<BindingId>>) -> Node
    ensures { result ≡ nodes.Arm constraint bindings.items }
{
    Node::Arm {
        constraint,
        bindings: Seq::new(bindings),
    }
}

fn block_task(left: Vec<usize>, known: Known, marks: Table<bool>, ready: Vec<BindingId>) -> Task
    ensures { result ≡ tasks.Block (record { left = left; known = known; marks = marks; ready = ready }) }
{
    Task::Block(Open {
        left,
        known,
        marks,
        ready,
    })
}

fn arms_task(
    site: BindingId,
    left: Vec<usize>,
    known: Known,
    marks: Table<bool>,
    ready: Vec<BindingId>,
) -> Task
    ensures { result ≡ tasks.Arms site 0 (record { left = left; known = known; marks = marks; ready = ready }) }
{
    arms_from(site, 0, left, known, marks, ready)
}

fn arms_from(
    site: BindingId,
    start: usize,
    left: Vec<usize>,
    known: Known,
    marks: Table<bool>,
    ready: Vec<BindingId>,
) -> Task
    ensures { result ≡ tasks.Arms site start (record { left = left; known = known; marks = marks; ready = ready }) }
{
    Task::Arms {
        site,
        start,
        place: Open {
            left,
            known,
            marks,
            ready,
        },
    }
}
