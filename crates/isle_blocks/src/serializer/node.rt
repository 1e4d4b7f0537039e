//! The nodes that a block is stored as. A node stands before its parts, so that neither a walk nor a drop of a block needs a stack for
//! how deep it nests.

use crate::constraint::Constraint;
use crate::ids::BindingId;
use isle_ast::Seq;
use isle_ast::pos::Pos;

/// A node of a block. `binds` are the sites that a step binds before its check, in order.
#[derive(Drop)]
pub(crate) enum Node {
    /// Nothing follows: the end of a list of steps.
    End,
    /// Nothing follows: the end of the arms of a match.
    NoArm,
    /// A match of a site. Its arms follow, then the steps after it.
    Match {
        binds: Seq<BindingId>,
        source: BindingId,
    },
    /// A comparison of two sites. The steps where they are equal follow, then the steps after it.
    Equal {
        binds: Seq<BindingId>,
        a: BindingId,
        b: BindingId,
    },
    /// A loop over what a multi call answers; `result` is the site of one of its values. The steps for each value follow, then the
    /// steps after it.
    Loop {
        binds: Seq<BindingId>,
        result: BindingId,
    },
    /// A return of the result of a rule, by the rule's number in its rule set. The steps after it follow.
    Return {
        binds: Seq<BindingId>,
        rule: usize,
        pos: Pos,
        result: BindingId,
    },
    /// An arm: a test, and the sites that passing it binds. The steps where it passes follow, then the arms after it.
    Arm {
        constraint: Constraint,
        bindings: Seq<Option<BindingId>>,
    },
}
