//! The environment of terms and rules, and what is looked up in it by name or by id.
ghost use Rattle.std.specs.Prelude.{◌≡◌, ◌≤◌, [], slice_get, All, IfOk, Some, IsSome};
ghost use Rattle.isle_rules.specs.declared.terms.Term.{Term as TermRecord};
ghost use Rattle.std.specs.Option.{option_copied, option_and_then, option_map};
ghost use Rattle.isle_types.specs.declared.types.Variant.{Variant};
ghost use Rattle.isle_types.specs.TypeEnvs.{sym_named, variant_of};
ghost use Rattle.isle_rules.specs.Shown.TermTables.{term_with, rule_with, converter_with};
ghost use Rattle.isle_rules.specs.Readings.Needs.{needed_of};

mod clone;
mod needs;

use crate::env::needs::needs_of;
use crate::rules::Rule;
use crate::terms::Term;
use isle_ast::ast::Ident;
use isle_types::{RuleId, StableMap, Sym, TermId, TypeEnv, TypeId, VariantId};
use std::alloc::{AllocError, Global};
use std::marker::Model;

/// The terms and rules of a list of definitions: `cranelift_isle::sema::TermEnv`. Contracts see its tables.
#[derive(Drop)]
pub struct TermEnv {
    alloc: Global,
    terms: Vec<Term>,
    needs: Vec<usize>,
    term_map: StableMap<Sym, TermId>,
    rules: Vec<Rule>,
    rule_map: StableMap<Sym, RuleId>,
    converters: StableMap<(TypeId, TypeId), TermId>,
    expand_internal_extractors: bool,
}

impl Model for TermEnv {
    ghost use Rattle.std.specs.Prelude.{◌≡◌, map};
    ghost use Rattle.isle_rules.specs.Shown.TermTables.{TermTables};
    ghost use Rattle.isle_rules.specs.Readings.Needs.{needed_of};
    ghost use Rattle.std.specs.Coded.{codes};
    ghost use Rattle.isle_ast.specs.Trees.PatternCode.{pattern_tree_code, pattern_trees_code};
    ghost use Rattle.isle_rules.specs.contracts.rules.Pattern as pattern;
    ghost use Rattle.isle_rules.specs.contracts.rules.Expr as expr;

    ghost Value = { TermTables };

    ghost coded = { Prim.hlevel (codes, pattern_tree_code, pattern_trees_code, pattern.the_row.coded, expr.the_row.coded) };

    ghost view = { λ env. record {
      terms = env.terms.items;
      numbers = env.term_map;
      rules = env.rules.items;
      rule_numbers = env.rule_map;
      converters = env.converters;
      expands = env.expand_internal_extractors;
    } };

    ghost invariant = { λ env. env.needs.items ≡ map needed_of env.terms.items };
}

impl TermEnv {
    /// The environment of terms with their numbers and converters, and as yet of no rules.
    pub fn of_terms(
        alloc: Global,
        terms: Vec<Term>,
        numbers: StableMap<Sym, TermId>,
        converters: StableMap<(TypeId, TypeId), TermId>,
        expand: bool,
    ) -> Result<TermEnv, AllocError>
        requires { All (λ (term : TermRecord). needed_of term ≤ usize.MAX) terms.items }
        ensures terms { IfOk result (λ env. env.terms ≡ terms.items) }
        ensures numbers { IfOk result (λ env. env.numbers ≡ numbers) }
        ensures rules { IfOk result (λ env. env.rules ≡ []) }
        ensures rule_numbers { IfOk result (λ env. env.rule_numbers ≡ []) }
        ensures converters { IfOk result (λ env. env.converters ≡ converters) }
        ensures expands { IfOk result (λ env. env.expands ≡ expand) }
    {
        let needs = needs_of(alloc, terms.as_slice())?;
        Ok(TermEnv {
            alloc,
            terms,
            needs,
            term_map: numbers,
            rules: Vec::new(alloc),
            rule_map: StableMap::new(alloc),
            converters,
            expand_internal_extractors: expand,
        })
    }

    /// The environment with these rules and the ids of their names.
    pub fn set_rules(self, rules: Vec<Rule>, rule_map: StableMap<Sym, RuleId>) -> TermEnv
        ensures { result ≡ record self { rules = rules.items; rule_numbers = rule_map } }
    {
        TermEnv {
            alloc: self.alloc,
            terms: self.terms,
            needs: self.needs,
            term_map: self.term_map,
            rules,
            rule_map,
            converters: self.converters,
            expand_internal_extractors: self.expand_internal_extractors,
        }
    }

    /// The terms, each at the place of its id: the declared ones in order, then those of the types.
    pub fn terms(&self) -> &[Term]
        ensures { result.now ≡ self.now.terms }
    {
        self.terms.as_slice()
    }

    /// A term, or `None` at an id that the environment doesn't have.
    pub fn get_term(&self, id: TermId) -> Option<&Term>
        ensures { option_copied result ≡ slice_get self.now.terms id.0 }
    {
        self.terms.get(id.index())
    }

    /// How many arguments a use of a term must give so that its template can be put in.
    pub fn needed_arguments(&self, id: TermId) -> Option<usize>
        ensures { result ≡ option_map needed_of (slice_get self.now.terms id.0) }
    {
        self.needs.get(id.index()).copied()
    }

    /// The rules, each at the place of its id, in the order of the texts.
    pub fn rules(&self) -> &[Rule]
        ensures { result.now ≡ self.now.rules }
    {
        self.rules.as_slice()
    }

    /// The id of a term, by its symbol.
    pub fn term_of_sym(&self, sym: Sym) -> Option<TermId>
        ensures { result ≡ term_with self.now sym }
    {
        self.term_map.get(&sym).copied()
    }

    /// The id of a term, by its name.
    pub fn get_term_by_name(&self, tyenv: &TypeEnv, sym: &Ident) -> Option<TermId>
        ensures { result ≡ option_and_then (term_with self.now) (sym_named tyenv.now sym.now.0) }
    {
        self.term_of_sym(tyenv.intern(sym)?)
    }

    /// The id of a variant's term; the caller knows that the type is an enum, has the variant, and that it has a term.
    pub fn get_variant_term(&self, tyenv: &TypeEnv, ty: TypeId, variant: VariantId) -> TermId
        requires { IsSome (option_and_then (λ (found : Variant). term_with self.now found.fullname) (variant_of tyenv.now ty variant)) }
        ensures { Some result ≡ option_and_then (λ (found : Variant). term_with self.now found.fullname) (variant_of tyenv.now ty variant) }
    {
        let variant = tyenv.get_variant(ty, variant);
        self.term_of_sym(variant.fullname).unwrap()
    }

    /// The id of a rule, by its name.
    pub fn get_rule_by_name(&self, tyenv: &TypeEnv, sym: &Ident) -> Option<RuleId>
        ensures { result ≡ option_and_then (rule_with self.now) (sym_named tyenv.now sym.now.0) }
    {
        let sym = tyenv.intern(sym)?;
        self.rule_map.get(&sym).copied()
    }

    /// The converter's term of an inner and an outer type.
    pub fn converter(&self, inner: TypeId, outer: TypeId) -> Option<TermId>
        ensures { result ≡ converter_with self.now inner outer }
    {
        self.converters.get(&(inner, outer)).copied()
    }

    /// The table from the symbol of a term's name to the term's id.
    pub fn term_map(&self) -> &StableMap<Sym, TermId>
        ensures { result.now ≡ self.now.numbers }
    {
        &self.term_map
    }

    /// The table from the symbol of a rule's name to the rule's id.
    pub fn rule_map(&self) -> &StableMap<Sym, RuleId>
        ensures { result.now ≡ self.now.rule_numbers }
    {
        &self.rule_map
    }

    /// The table from an inner and an outer type to their converter's term.
    pub fn converters(&self) -> &StableMap<(TypeId, TypeId), TermId>
        ensures { result.now ≡ self.now.converters }
    {
        &self.converters
    }

    /// Whether internal extractors are put in where they are used.
    pub fn expand_internal_extractors(&self) -> bool
        ensures { result ≡ self.now.expands }
    {
        self.expand_internal_extractors
    }
}
