//! For each site a list of sites.
ghost use Rattle.std.specs.Prelude.{◌≡◌, ◌≢◌, ◌<◌, ◌++◌, ◌∷◌, [], ℕ, length, replicate, slice_index_or, slice_set, IfOk, OnOk};

use std::alloc::{AllocError, Global};
use std::marker::Model;
use std::mem;

/// For each site a list of sites, by their numbers. Contracts see the list of these lists.
#[derive(Drop)]
pub(super) struct SiteLists {
    lists: Vec<Vec<usize>>,
}

impl Model for SiteLists {
    ghost use Rattle.std.specs.Prelude.{List, ℕ, map};

    ghost Value = { List (List ℕ) };

    ghost view = { λ lists. map (λ list. list.items) lists.lists.items };
}

impl SiteLists {
    /// An empty list for each site.
    pub(super) fn new(alloc: Global, count: usize) -> Result<SiteLists, AllocError>
        ensures { IfOk result (λ lists. lists ≡ replicate count []) }
    {
        let mut lists = Vec::new(alloc);
        for _site in 0..count {
            lists.push(Vec::new(alloc))?;
        }
        Ok(SiteLists { lists })
    }

    /// Each site in its own list, alone.
    pub(super) fn alone(alloc: Global, count: usize) -> Result<SiteLists, AllocError>
        ensures fits { IfOk result (λ lists. length lists ≡ count) }
        ensures alone { IfOk result (λ lists. (site : ℕ) → site < count → slice_index_or lists site [] ≡ site ∷ []) }
    {
        let mut lists = Vec::new(alloc);
        for site in 0..count {
            lists.push(vec![in alloc; site]?)?;
        }
        Ok(SiteLists { lists })
    }

    /// The list of a site.
    pub(super) fn get(&self, of: usize) -> &[usize]
        requires { of < length self.now }
        ensures { result.now ≡ slice_index_or self.now of [] }
    {
        self.lists[of].as_slice()
    }

    /// Adds a site to the list of another.
    pub(super) fn add(&mut self, of: usize, site: usize) -> Result<(), AllocError>
        requires { of < length self.old }
        ensures { OnOk result (self.new ≡ slice_set self.old of (slice_index_or self.old of [] ++ site ∷ [])) }
    {
        self.lists[of].push(site)?;
        Ok(())
    }

    /// Moves the list of a site behind others.
    pub(super) fn take(&mut self, of: usize, others: &mut Vec<usize>) -> Result<(), AllocError>
        requires { of < length self.old }
        ensures taken { OnOk result (others.new.items ≡ others.old.items ++ slice_index_or self.old of []) }
        ensures left { OnOk result (self.new ≡ slice_set self.old of []) }
    {
        others.append(&mut self.lists[of])?;
        Ok(())
    }

    /// Moves the list of a site behind that of another.
    pub(super) fn join(&mut self, from: usize, to: usize) -> Result<(), AllocError>
        requires from_in { from < length self.old }
        requires to_in { to < length self.old }
        requires apart { from ≢ to }
        ensures { OnOk result (self.new ≡ slice_set (slice_set self.old from []) to
            (slice_index_or self.old to [] ++ slice_index_or self.old from [])) }
    {
        let mut moved = mem::try_take(&mut self.lists[from])?;
        self.lists[to].append(&mut moved)?;
        Ok(())
    }
}
