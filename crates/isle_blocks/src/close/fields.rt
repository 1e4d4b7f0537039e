//! Fields that tests open, by their numbers.
ghost use Rattle.std.specs.Prelude.{◌≡◌, ◌<◌, ◌↔◌, ℕ, Option, IsTrue, MatchOption, slice_get, Some};
ghost use Rattle.std.specs.Option.{option_map};
ghost use Rattle.isle_blocks.specs.Tables.{IsAbsent};
ghost use Rattle.isle_blocks.specs.Inside.ClosureFields.{Opens, field_binding, kind_of, AreFields};

use crate::binding::Binding;
use crate::constraint::Constraint;
use crate::ids::{BindingId, TupleIndex};
use crate::sites::Sites;
use isle_types::VariantId;

/// What a test opens: so many fields, of a variant, or of a struct where none is given.
#[derive(Clone, Copy)]
pub(super) struct Opening {
    pub(super) variant: Option<VariantId>,
    pub(super) fields: TupleIndex,
}

/// What a test opens.
pub(super) fn opens(test: Constraint) -> Option<Opening>
    ensures { MatchOption result ((kind : Option ℕ) (i : ℕ) → Opens test kind i → ⊥) (λ opening. AreFields test opening) }
{
    match test {
        Constraint::Variant {
            variant,
            fields,
            ..
        } => Some(Opening {
            variant: Some(variant),
            fields,
        }),
        Constraint::Struct { fields, .. } => Some(Opening {
            variant: None,
            fields,
        }),
        Constraint::ConstBool { .. } => None,
        Constraint::ConstInt { .. } => None,
        Constraint::ConstPrim { .. } => None,
        Constraint::Some => None,
    }
}

/// Whether two tests are the same.
pub(super) fn same(left: Constraint, right: Constraint) -> bool
    ensures { IsTrue result ↔ (left ≡ right) }
{
    left == right
}

/// A field of a site.
pub(super) fn field(variant: Option<VariantId>, source: usize, index: u8) -> Binding
    requires { source < 65536 }
    ensures { result ≡ field_binding (kind_of variant) source index }
{
    let source = BindingId(source as u16);
    match variant {
        Some(variant) => Binding::MatchVariant {
            source,
            variant,
            field: TupleIndex(index),
        },
        None => Binding::ExtractStruct {
            source,
            field: TupleIndex(index),
        },
    }
}

/// The number of a field of a site, if it is there.
pub(super) fn find_field(
    sites: &Sites,
    variant: Option<VariantId>,
    source: usize,
    index: u8,
) -> Option<usize>
    requires { source < 65536 }
    ensures { MatchOption result (IsAbsent sites.now (field_binding (kind_of variant) source index))
        (λ f. slice_get sites.now f ≡ Some (field_binding (kind_of variant) source index)) }
{
    match sites.find(&field(variant, source, index)) {
        Some(id) => Some(id.index()),
        None => None,
    }
}
