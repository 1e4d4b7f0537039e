//! The table of sites.
ghost use Rattle.std.specs.Prelude.{◌≡◌, ◌≤◌, [], length, slice_get, option_copied, IfOk, OnErr, IfErr};
ghost use Rattle.isle_types.specs.Names.{AreDistinct};
ghost use Rattle.isle_blocks.specs.Tables.{IsFound, IsInterned, IsFull};

use crate::binding::Binding;
use crate::ids::BindingId;
use isle_types::SortedSet;
use std::alloc::{AllocError, AllocFailed, Global};
use std::marker::Model;

/// The sites of a rule or of a rule set: each once; a site's number is its place.
#[derive(Drop)]
pub(crate) struct Sites {
    bindings: SortedSet<Binding>,
}

impl Model for Sites {
    ghost use Rattle.std.specs.Prelude.{List, ◌≤◌, length};
    ghost use Rattle.isle_blocks.specs.declared.binding.Binding.{Binding};

    ghost Value = { List Binding };

    ghost view = { λ sites. sites.bindings };

    ghost invariant = { λ sites. length sites.bindings ≤ 65536 };
}

/// Why a site gets no number.
#[derive(Clone, Copy)]
pub(crate) enum SiteFault {
    /// There are 65,536 others.
    Size,
    Memory,
}

impl From<AllocError> for SiteFault {
    ghost use Rattle.std.specs.Prelude.{◌≡◌};
    ghost use Rattle.isle_blocks.specs.declared.sites.SiteFault.TheVariants.{Memory};

    ghost from_gives = { λ _ fault. fault ≡ Memory };

    fn from(_error: AllocError) -> SiteFault {
        SiteFault::Memory
    }
}

impl<T: Drop> From<AllocFailed<T>> for SiteFault {
    ghost use Rattle.std.specs.Prelude.{◌≡◌};
    ghost use Rattle.isle_blocks.specs.declared.sites.SiteFault.TheVariants.{Memory};

    ghost from_gives = { λ _ fault. fault ≡ Memory };

    fn from(_error: AllocFailed<T>) -> SiteFault {
        SiteFault::Memory
    }
}

impl Sites {
    /// No sites.
    pub(crate) fn new(alloc: Global) -> Self
        ensures { result ≡ [] }
    {
        Sites {
            bindings: SortedSet::new(alloc),
        }
    }

    /// No sites, and room for so many.
    pub(crate) fn with_capacity(alloc: Global, count: usize) -> Result<Self, AllocError>
        ensures { IfOk result (λ made. made ≡ []) }
    {
        let bindings = SortedSet::with_capacity(alloc, count)?;
        Ok(Sites { bindings })
    }

    /// The number of sites, which is at most 65,536.
    pub(crate) fn len(&self) -> usize
        ensures count { result ≡ length self.now }
        ensures bound { length self.now ≤ 65536 }
        ensures once { AreDistinct self.now }
    {
        self.bindings.len()
    }

    /// The sites, each at its number.
    pub(crate) fn bindings(&self) -> &[Binding]
        ensures { result.now ≡ self.now }
    {
        self.bindings.as_slice()
    }

    /// The sites alone, each at its number.
    pub(crate) fn into_bindings(self) -> Vec<Binding>
        ensures { result.items ≡ self }
    {
        self.bindings.into_vec()
    }

    /// The site with a number.
    pub(crate) fn get(&self, id: BindingId) -> Option<&Binding>
        ensures { option_copied result ≡ slice_get self.now id.0 }
    {
        self.bindings.get(id.index())
    }

    /// The number of a site, if it is there.
    pub(crate) fn find(&self, binding: &Binding) -> Option<BindingId>
        ensures { IsFound self.now binding.now result }
    {
        match self.bindings.find(binding) {
            Some(number) => Some(BindingId(number as u16)),
            None => None,
        }
    }

    /// The number of a site, which is there now.
    pub(crate) fn intern(&mut self, binding: Binding) -> Result<BindingId, SiteFault>
        ensures ok { IfOk result (λ id. IsInterned self.old binding id self.new) }
        ensures err { OnErr result (self.new ≡ self.old) }
        ensures full { IfErr result (λ fault. fault ≡ SiteFault.Size → IsFull self.old binding) }
    {
        if self.bindings.len() > u16::MAX as usize {
            return self.find(&binding).ok_or(SiteFault::Size);
        }
        let number = self.bindings.insert(binding)?;
        Ok(BindingId(number as u16))
    }
}
