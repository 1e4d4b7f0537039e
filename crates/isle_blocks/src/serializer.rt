//! Rule sets as trees of tests.
ghost use Rattle.std.specs.Prelude.{◌≡◌, ℕ, List, IfOk, length, []};
ghost use Rattle.isle_types.specs.declared.ids.Sym.{Sym};
ghost use Rattle.isle_trees.specs.Builds.{Builds};
ghost use Rattle.isle_trees.specs.Scopes.{nothing_known};
ghost use Rattle.isle_trees.specs.Rules.{below};
ghost use Rattle.isle_blocks.specs.Inside.Trees.Builder.{IsSerializable, rules_in};
ghost use Rattle.isle_blocks.specs.Trees.Nodes.{first_steps, read};
ghost use Rattle.isle_blocks.specs.Trees.Promises.{BindsWhatIsAsked, ChoosesAsRules, HasArmsInOrder, IsBuilt, IsCheckedSet, IsShort, ReturnsItsRules};
ghost use Rattle.isle_blocks.specs.Trees.RuleBags.{MakesItsBag};
ghost use Rattle.isle_blocks.specs.Trees.ReadPromises.{BindsFieldsByTests, BindsItsFields, ReadsWhatIsBound};
ghost use Rattle.isle_blocks.specs.Trees.RightPromises.{AnswersAsRules};
ghost use Rattle.isle_blocks.specs.Trees.TypedCalls.{CallsTakeTheirTypes};
ghost use Rattle.isle_blocks.specs.Inside.Trees.Work.{AreOfRules};

mod binding;
mod block;
mod groups;
mod index;
mod known;
mod marking;
mod node;
mod ready;
mod search;
mod table;
mod views;
mod wants;
mod work;

use crate::rule_set::RuleSet;
pub use block::Block;
use groups::numbers;
use index::Index;
use known::{Known, no_marks};
use node::Node;
use std::alloc::{AllocError, Global};
pub use views::{Arms, ControlFlow, EvalStep, MatchArm, Steps};

/// The tree of tests of a rule set. A path of tests takes no native stack, however long it is. Want of memory leaves nothing.
///
/// The best test at each point is the one that most of the rules left have, down to the greatest priority of a rule that lacks it;
/// then one whose sites are bound already; then a match before a comparison before a loop; then that of the lesser sites.
pub fn serialize(alloc: Global, set: &RuleSet) -> Result<Block, AllocError>
    requires checked { IsCheckedSet set.now }
    ensures builds { IfOk result (IsBuilt set.now) }
    ensures returns { IfOk result (ReturnsItsRules set.now) }
    ensures chooses { IfOk result (ChoosesAsRules set.now) }
    ensures bag { IfOk result (MakesItsBag set.now) }
    ensures asks { IfOk result (BindsWhatIsAsked set.now) }
    ensures ascends { IfOk result (HasArmsInOrder set.now) }
    ensures few { IfOk result (IsShort set.now) }
    ensures reads { IfOk result (ReadsWhatIsBound set.now) }
    ensures fields { IfOk result (BindsItsFields set.now) }
    ensures by_tests { IfOk result (BindsFieldsByTests set.now) }
    ensures typed { IfOk result (CallsTakeTheirTypes set.now) }
    ensures answers { IfOk result (AnswersAsRules set.now) }
{
    let nodes = nodes_of(alloc, set)?;
    let block = Block::new(alloc, nodes)?;
    Ok(block)
}

/// The nodes of a rule set's tree.
fn nodes_of(alloc: Global, set: &RuleSet) -> Result<Vec<Node>, AllocError>
    requires set { IsSerializable set.now }
    ensures builds { IfOk result (λ v. Builds (rules_in set.now) (below (length set.now.rules)) nothing_known (first_steps (read v.items []))) }
    ensures told { IfOk result (λ v. AreOfRules set.now v.items) }
{
    let left = set.in_order(numbers(alloc, set.rules().len())?)?;
    let sites = set.site_count();
    let known = Known::start(alloc, sites)?;
    let none = no_marks(alloc, sites)?;
    let index = Index::new(alloc, set)?;
    let marks = set.available(&index, &left, &known, &none)?;
    let ready = set.all_ready(alloc, &index, &known, &marks)?;
    let nodes = set.lay_out(alloc, &index, left, known, marks, ready)?;
    Ok(nodes)
}
