//! How a block is read: step by step, and arm by arm. Each step of a walk takes the same time, however large the block is.
ghost use Rattle.std.specs.Prelude.{◌≡◌};

use crate::constraint::Constraint;
use crate::ids::BindingId;
use crate::serializer::block::Place;
use crate::serializer::node::Node;
use isle_ast::Seq;
use isle_ast::pos::Pos;

/// Steps of a block, one after another: those of the block, or those behind a check.
#[derive(Clone, Copy)]
pub struct Steps<'a> {
    place: Place<'a>,
}

/// The arms of a match, or those of them that are left.
#[derive(Clone, Copy)]
pub struct Arms<'a> {
    place: Place<'a>,
}

/// A step: the sites to bind, in order, and then a check.
#[derive(Clone, Copy)]
pub struct EvalStep<'a> {
    pub bind_order: &'a [BindingId],
    pub check: ControlFlow<'a>,
}

/// What a step does once its sites are bound. Where nothing behind the check returns, the step after it goes on.
#[derive(Clone, Copy)]
pub enum ControlFlow<'a> {
    /// The value of the site is tested, arm after arm.
    Match {
        source: BindingId,
        arms: Arms<'a>,
    },
    /// The steps go on where the two sites are equal.
    Equal {
        a: BindingId,
        b: BindingId,
        body: Steps<'a>,
    },
    /// The steps go on for each value of a multi call; `result` is the site of the value.
    Loop {
        result: BindingId,
        body: Steps<'a>,
    },
    /// A rule's result is returned: `rule` is the rule's place among the rules of its set, from 0, `pos` its place in the source.
    Return {
        rule: usize,
        pos: Pos,
        result: BindingId,
    },
}

/// An arm of a match: a test, the sites of what passing it makes, in order, and the steps that go on where it passes. Of what no rule
/// speaks of there is no site.
#[derive(Clone, Copy)]
pub struct MatchArm<'a> {
    pub constraint: Constraint,
    pub bindings: &'a [Option<BindingId>],
    pub body: Steps<'a>,
}

impl<'a> Steps<'a> {
    ghost use Rattle.std.specs.Prelude.{◌≡◌, IfNone, IfSome};
    ghost use Rattle.isle_trees.specs.Tree.{done};
    ghost use Rattle.isle_blocks.specs.Trees.Places.{steps_at};
    ghost use Rattle.isle_blocks.specs.Trees.Views.{shown_steps, step_before, HasPartsOf, ReturnsOneOf};

    /// The steps from a place on.
    #[tactic(auto, unfolding(crate::specs::Trees::Views::shown_steps, crate::specs::Trees::Views::shown_arms))]
    pub(crate) fn new(place: Place<'a>) -> Steps<'a>
        ensures { shown_steps result ≡ steps_at place.entry }
    {
        Steps { place }
    }

    /// The first step and the steps after it, or `None` where no step is left.
    #[tactic(auto, unfolding(crate::specs::Trees::Views::shown_steps, crate::specs::Trees::Views::shown_arms))]
    pub fn next(self) -> Option<(EvalStep<'a>, Steps<'a>)>
        ensures end { IfNone result ((shown_steps self.entry).tree ≡ done) }
        ensures step { IfSome result (λ p. (shown_steps self.entry).tree ≡ step_before p.0 (shown_steps p.1).tree) }
        ensures rest { IfSome result (λ p. (shown_steps p.1).returns ≡ (shown_steps self.entry).returns) }
        ensures parts { IfSome result (λ p. HasPartsOf (shown_steps self.entry).returns p.0.check) }
        ensures returned { IfSome result (λ p. ReturnsOneOf (shown_steps self.entry).returns p.0.check) }
    {
        let (node, first, after) = self.place.parts()?;
        let body = Steps { place: first };
        let rest = Steps { place: after };
        match node {
            Node::Match { binds, source } => {
                let arms = Arms { place: first };
                let source = *source;
                let check = ControlFlow::Match { source, arms };
                Some((step(binds, check), rest))
            }
            Node::Equal { binds, a, b } => {
                let check = ControlFlow::Equal { a: *a, b: *b, body };
                Some((step(binds, check), rest))
            }
            Node::Loop { binds, result } => {
                let result = *result;
                let check = ControlFlow::Loop { result, body };
                Some((step(binds, check), rest))
            }
            Node::Return {
                binds,
                rule,
                pos,
                result,
            } => {
                let check = ControlFlow::Return {
                    rule: *rule,
                    pos: *pos,
                    result: *result,
                };
                Some((step(binds, check), body))
            }
            _ => None,
        }
    }
}

/// The steps, one after another.
impl<'a> Iterator for Steps<'a> {
    ghost use Rattle.std.specs.Iterator.{at_most};
    ghost use Rattle.isle_blocks.specs.Trees.Views.{shown_steps, step_count, GivesStep};

    type Item = EvalStep<'a>;

    ghost next_gives = { GivesStep };

    ghost remaining = { λ s. at_most (step_count (shown_steps s).tree) };

    fn next(&mut self) -> Option<EvalStep<'a>> {
        let (step, rest) = Steps::next(*self)?;
        *self = rest;
        Some(step)
    }
}

/// A step of its parts.
fn step<'a>(binds: &'a Seq<BindingId>, check: ControlFlow<'a>) -> EvalStep<'a>
    ensures bind { result.bind_order.now ≡ binds.now }
    ensures check { result.check ≡ check.entry }
{
    EvalStep {
        bind_order: binds.as_slice(),
        check,
    }
}

impl<'a> Arms<'a> {
    ghost use Rattle.std.specs.Prelude.{◌≡◌, IfNone, IfSome};
    ghost use Rattle.isle_trees.specs.Tree.{no_arm};
    ghost use Rattle.isle_blocks.specs.Trees.Views.{shown_arms, shown_steps, arm_before};

    /// The first arm and the arms after it, or `None` where no arm is left.
    #[tactic(auto, unfolding(crate::specs::Trees::Views::shown_steps, crate::specs::Trees::Views::shown_arms))]
    pub fn next(self) -> Option<(MatchArm<'a>, Arms<'a>)>
        ensures end { IfNone result ((shown_arms self.entry).arms ≡ no_arm) }
        ensures arm { IfSome result (λ p. (shown_arms self.entry).arms ≡ arm_before p.0 (shown_arms p.1).arms) }
        ensures rest { IfSome result (λ p. (shown_arms p.1).returns ≡ (shown_arms self.entry).returns) }
        ensures body { IfSome result (λ p. (shown_steps p.0.body).returns ≡ (shown_arms self.entry).returns) }
    {
        let (node, first, after) = self.place.parts()?;
        match node {
            Node::Arm {
                constraint,
                bindings,
            } => {
                let arm = MatchArm {
                    constraint: *constraint,
                    bindings: bindings.as_slice(),
                    body: Steps { place: first },
                };
                Some((arm, Arms { place: after }))
            }
            _ => None,
        }
    }
}

/// The arms, one after another.
impl<'a> Iterator for Arms<'a> {
    ghost use Rattle.std.specs.Iterator.{at_most};
    ghost use Rattle.isle_blocks.specs.Trees.Views.{shown_arms, arm_count, GivesArm};

    type Item = MatchArm<'a>;

    ghost next_gives = { GivesArm };

    ghost remaining = { λ s. at_most (arm_count (shown_arms s).arms) };

    fn next(&mut self) -> Option<MatchArm<'a>> {
        let (arm, rest) = Arms::next(*self)?;
        *self = rest;
        Some(arm)
    }
}
