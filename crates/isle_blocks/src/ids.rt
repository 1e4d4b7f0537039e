//! Ids in rule sets: the places of fields, and the numbers of sites.
ghost use Rattle.std.specs.Prelude.{◌≡◌};

use std::num::TryFromIntError;

/// The place of a field in a variant, a struct or a tuple, from 0 to 255.
#[derive(Debug, Clone, Copy, PartialEq, Eq, PartialOrd, Ord, Hash, Default)]
pub struct TupleIndex(pub u8);

/// The number of a site in its rule set: its place among the rule set's bindings, from 0 to 65,535.
#[derive(Debug, Clone, Copy, PartialEq, Eq, PartialOrd, Ord, Hash, Default)]
pub struct BindingId(pub u16);

impl TupleIndex {
    /// The number itself.
    pub fn index(self) -> usize
        ensures { result ≡ self.0 }
    {
        self.0.into()
    }
}

impl BindingId {
    /// The number itself.
    pub fn index(self) -> usize
        ensures { result ≡ self.0 }
    {
        self.0.into()
    }
}

/// A number past 255 is refused.
impl TryFrom<usize> for TupleIndex {
    ghost use Rattle.isle_blocks.specs.Numbers.{IsTupleIndexOf};

    type Error = TryFromIntError;

    ghost try_from_gives = { IsTupleIndexOf };

    fn try_from(value: usize) -> Result<Self, TryFromIntError> {
        Ok(TupleIndex(value.try_into()?))
    }
}

/// A number past 65,535 is refused.
impl TryFrom<usize> for BindingId {
    ghost use Rattle.isle_blocks.specs.Numbers.{IsBindingIdOf};

    type Error = TryFromIntError;

    ghost try_from_gives = { IsBindingIdOf };

    fn try_from(value: usize) -> Result<Self, TryFromIntError> {
        Ok(BindingId(value.try_into()?))
    }
}

impl From<u16> for BindingId {
    ghost use Rattle.std.specs.Prelude.{◌≡◌};

    ghost from_gives = { λ value id. id.0 ≡ value };

    fn from(value: u16) -> Self {
        BindingId(value)
    }
}
