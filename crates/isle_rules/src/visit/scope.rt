//! Variables that are bound while a visit goes on, with their values.
ghost use Rattle.std.specs.Prelude.{◌≡◌, IfOk, OnOk, IfErr};
ghost use Rattle.isle_rules.specs.declared.visit.fault.VisitFault.TheVariants.{Memory};
ghost use Rattle.isle_rules.specs.Visits.VisitScopes.{scope_of, bound_by};

use crate::visit::VisitFault;
use isle_types::VarId;
use std::alloc::{AllocError, Global};
use std::collections::HashMap;

/// What a variable has.
pub fn look_up<T: Copy>(vars: &HashMap<VarId, T>, var: VarId) -> Option<T>
    ensures { result ≡ scope_of vars.now var }
{
    match vars.get(&var) {
        Some(value) => Some(*value),
        None => None,
    }
}

/// Gives a variable its value.
pub fn bind<T: Copy>(vars: &mut HashMap<VarId, T>, var: VarId, value: T) -> Result<(), VisitFault>
    ensures bound { OnOk result (scope_of vars.new ≡ bound_by (scope_of vars.old) var value) }
    ensures refused { IfErr result (λ fault. fault ≡ Memory) }
{
    vars.insert(var, value)?;
    Ok(())
}

/// The same variables in a map of their own.
pub fn copy_of<T: Copy>(
    alloc: Global,
    vars: &HashMap<VarId, T>,
) -> Result<HashMap<VarId, T>, VisitFault>
    ensures same { IfOk result (λ copy. scope_of copy ≡ scope_of vars.now) }
    ensures refused { IfErr result (λ fault. fault ≡ Memory) }
{
    let mut copy = HashMap::new(alloc);
    for (var, value) in vars {
        copy.insert(*var, *value)?;
    }
    Ok(copy)
}
