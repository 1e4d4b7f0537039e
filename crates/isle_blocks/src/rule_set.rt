//! Rule sets: the rules of a term over one table of sites.
ghost use Rattle.std.specs.Prelude.{◌≡◌, ◌≤◌, [], IfOk, IfErr, length};
ghost use Rattle.isle_types.specs.Names.{AreDistinct};
ghost use Rattle.isle_blocks.specs.AddedRules.{IsDefinedRule, LacksRoomFor};
ghost use Rattle.isle_blocks.specs.Tables.{IsTable};
ghost use Rattle.isle_blocks.specs.Inside.GatheredSets.{AddsToSet};
ghost use Rattle.isle_blocks.specs.Tables.{IsFound};
ghost use Rattle.isle_blocks.specs.RuleSets.{no_rules};

use crate::adding::add_defined;
use crate::binding::Binding;
use crate::ids::BindingId;
use crate::rule::Rule;
use crate::sites::{SiteFault, Sites};
use isle_rules::TermEnv;
use std::alloc::Global;
use std::marker::Model;

/// The rules of a term that can match, and the sites that they speak of, each once.
#[derive(Drop)]
pub struct RuleSet {
    rules: Vec<Rule>,
    sites: Sites,
}

impl Model for RuleSet {
    ghost use Rattle.isle_blocks.specs.RuleSets.{RulesOverSites};

    ghost Value = { RulesOverSites };

    ghost view = { λ set. record { rules = set.rules.items; sites = set.sites } };
}

impl RuleSet {
    /// No rules yet.
    pub(crate) fn new(alloc: Global) -> Self
        ensures { result ≡ no_rules }
    {
        RuleSet {
            rules: Vec::new(alloc),
            sites: Sites::new(alloc),
        }
    }

    /// Adds a rule that definitions make, and says whether it can match; one that can't is left out.
    pub(crate) fn add(
        &mut self,
        alloc: Global,
        termenv: &TermEnv,
        source: &isle_rules::Rule,
        partial: bool,
    ) -> Result<bool, SiteFault>
        requires defined { IsDefinedRule termenv.now source.now }
        requires table { IsTable self.old.sites }
        ensures adds { IfOk result (AddsToSet termenv.now source.now partial self.old self.new) }
        ensures kept { IfOk result (λ _. IsTable self.new.sites) }
        ensures few { IfOk result (λ _. length self.new.sites ≤ 65536) }
        ensures full { IfErr result (λ fault. fault ≡ SiteFault.Size → LacksRoomFor termenv.now source.now partial self.old.sites) }
    {
        let made = add_defined(alloc, termenv, source, partial, &mut self.sites)?;
        let _count = self.sites.len();
        let Some(rule) = made else {
            return Ok(false);
        };
        self.rules.push(rule)?;
        Ok(true)
    }

    /// The rules, in the order of the source.
    pub fn rules(&self) -> &[Rule]
        ensures { result.now ≡ self.now.rules }
    {
        self.rules.as_slice()
    }

    /// The sites, each at its number.
    pub fn bindings(&self) -> &[Binding]
        ensures { result.now ≡ self.now.sites }
    {
        self.sites.bindings()
    }

    /// The number of sites, of which each stands once.
    pub(crate) fn site_count(&self) -> usize
        ensures count { result ≡ length self.now.sites }
        ensures bound { length self.now.sites ≤ 65536 }
        ensures once { AreDistinct self.now.sites }
    {
        self.sites.len()
    }

    /// The number of a site, if the rules speak of it.
    pub fn find_binding(&self, binding: &Binding) -> Option<BindingId>
        ensures { IsFound self.now.sites binding.now result }
    {
        self.sites.find(binding)
    }
}
