//! What answers the external functions of a program.
ghost use Rattle.std.specs.Prelude.{◌≡◌, ℕ, List, Option, IfOk, OnErr};
ghost use Rattle.isle_rules.specs.Values.{ValueTree, ValueTrees, value_list};
ghost use Rattle.isle_values.specs.Worlds.Entries.{part_shown};

pub mod entry;
pub mod external;
pub mod reading;
mod table;

use crate::values::Value;
pub use entry::Side;
pub use reading::WorldFault;
use std::alloc::{AllocError, Global};
pub use table::TableWorld;

/// What answers the external functions of a program, by the names of their terms.
pub trait World {
    /// what a constructor is answered that makes no effect
    ghost constructs: { Self → List ℕ → ValueTrees → Option ValueTree };

    /// what an extractor is answered
    ghost extracts: { Self → List ℕ → ValueTree → Option ValueTrees };

    /// in a world a constructor may be answered so, and leave that world
    ghost step: { Self → List ℕ → ValueTrees → Option ValueTree → Self → Type 0 };

    /// The answer of a pure constructor, the same at each call.
    fn construct(
        &self,
        alloc: Global,
        term: &str,
        args: &[Value],
    ) -> Result<Option<Value>, AllocError>
        ensures { IfOk result (λ answer. answer ≡ constructs self.now term.now (value_list args.now)) };

    /// What an extractor takes a value apart into, the same at each call.
    fn extract(
        &self,
        alloc: Global,
        term: &str,
        arg: &Value,
    ) -> Result<Option<Vec<Value>>, AllocError>
        ensures { IfOk result (λ answer. part_shown answer ≡ extracts self.now term.now arg.now) };

    /// The answer of any other constructor. Where memory is refused it has made no effect.
    fn effect(
        &mut self,
        alloc: Global,
        term: &str,
        args: &[Value],
    ) -> Result<Option<Value>, AllocError>
        ensures made { IfOk result (λ answer. step self.old term.now (value_list args.now) answer self.new) }
        ensures unmade { OnErr result (self.new ≡ self.old) };

    /// an effect leaves what the others are answered alone
    ghost keeps: { (world next : Self) (term : List ℕ) (args : ValueTrees) (answer : Option ValueTree) → step world term args answer next
        → (constructs next ≡ constructs world) × (extracts next ≡ extracts world) };
}
