//! Copies of values, and equality.
ghost use Rattle.std.specs.Prelude.{◌≡◌, ◌↔◌, IsTrue};
ghost use Rattle.isle_ast.specs.Trees.Equality.{same_coded};
ghost use Rattle.isle_values.specs.Values.Code.{value_tree_code};

use super::Value;
use std::alloc::AllocError;

impl Clone for Value {
    ghost use Rattle.std.specs.Prelude.{◌≡◌};

    ghost is_clone = { λ x y. y ≡ x };

    fn clone(&self) -> Result<Value, AllocError> {
        Ok(Value {
            nodes: self.nodes.clone()?,
        })
    }
}

impl PartialEq for Value {
    ghost use Rattle.std.specs.Cmp.{partial_equiv_from_equiv};
    ghost use Rattle.isle_ast.specs.Trees.Equality.{same_coded, same_coded-equiv};
    ghost use Rattle.isle_values.specs.Values.Code.{value_tree_code};

    ghost eq = { same_coded value_tree_code };

    ghost laws = { partial_equiv_from_equiv (same_coded-equiv value_tree_code) };

    fn eq(&self, other: &Value) -> bool
        ensures answer { result ≡ same_coded value_tree_code self.now other.now }
        ensures same { IsTrue result ↔ (self.now ≡ other.now) }
    {
        self.nodes == other.nodes
    }
}

impl Eq for Value {
    ghost use Rattle.isle_ast.specs.Trees.Equality.{same_coded-equiv};
    ghost use Rattle.isle_values.specs.Values.Code.{value_tree_code};

    ghost laws = { same_coded-equiv value_tree_code };
}
