//! What holds of the definitions of typing: public functions with nothing to do, whose contracts are the laws.
ghost use Rattle.std.specs.Prelude.{◌≡◌, ℕ, ◌+◌, ◌*◌, Bool, List, All};
ghost use Rattle.isle_ast.specs.declared.ast.Def.{Def};
ghost use Rattle.isle_ast.specs.declared.ast.Rule.{Rule};
ghost use Rattle.isle_ast.specs.declared.pos.Pos.{Pos};
ghost use Rattle.isle_ast.specs.Trees.Comparisons.{DecidesSame};
ghost use Rattle.isle_types.specs.Environment.{Environment};
ghost use Rattle.isle_types.specs.TypeTables.{TypeTables};
ghost use Rattle.isle_rules.specs.declared.rules.Rule.{Rule as MadeRule};
ghost use Rattle.isle_rules.specs.TypedRules.{TypedRule};
ghost use Rattle.isle_rules.specs.Signatures.{Declared};
ghost use Rattle.isle_rules.specs.Elaboration.{ElaboratesRule};
ghost use Rattle.isle_rules.specs.Definitions.{TermEnvironment, declared_by, MakesTerms};
ghost use Rattle.isle_terms.specs.TypingFaults.{BreaksTyping, ExceedsTyping};
ghost use Rattle.isle_rules.specs.Shown.TermTables.{TermTables};
ghost use Rattle.isle_rules.specs.Shown.ShownTerms.{ShowsDeclared};
ghost use Rattle.isle_rules.specs.Shown.RulesShown.{IsShownRule};
ghost use Rattle.isle_rules.specs.Shown.RulesShown.{ShowsTerms};
ghost use Rattle.isle_rules.specs.SoundRules.WellTyped.{IsTypedRule};
ghost use Rattle.isle_rules.specs.SoundRules.KeptScopes.{KeepsScopes};
ghost use Rattle.isle_terms.specs.Sizes.{IsWithinSizes, HasSizes, HasFittingRules};
ghost use Rattle.isle_rules.specs.Visits.OwnFaults.{NeverUndefined, FindsAllDefined};
ghost use Rattle.isle_rules.specs.Visits.RuleEvents.{visits_rule};

use isle_rules::{
    BoundVar, ConstructorKind, Expr, ExprVisitor, ExtractorKind, Pattern, PatternVisitor,
    ReturnKind, RuleVisitor, Term, TermFlags, TermKind,
};

/// Typed patterns and expressions are equal exactly where they are the same.
pub fn equal_typed_trees_are_the_same()
    ensures patterns { DecidesSame ⟦<Pattern as PartialEq>⟧.eq }
    ensures expressions { DecidesSame ⟦<Expr as PartialEq>⟧.eq }
    ensures variables { DecidesSame ⟦<BoundVar as PartialEq>⟧.eq }
{}

/// Terms, and what they are made of, are equal exactly where they are the same.
pub fn equal_terms_are_the_same()
    ensures terms { DecidesSame ⟦<Term as PartialEq>⟧.eq }
    ensures kinds { DecidesSame ⟦<TermKind as PartialEq>⟧.eq }
    ensures flags { DecidesSame ⟦<TermFlags as PartialEq>⟧.eq }
    ensures constructors { DecidesSame ⟦<ConstructorKind as PartialEq>⟧.eq }
    ensures extractors { DecidesSame ⟦<ExtractorKind as PartialEq>⟧.eq }
    ensures returns { DecidesSame ⟦<ReturnKind as PartialEq>⟧.eq }
{}

/// Definitions make one environment of terms at most, whatever the sizes.
pub fn definitions_make_one_environment()
    ensures { (types : Environment) (expands : Bool) (m n max most : ℕ) (defs : List Def) (a b : TermEnvironment)
        → MakesTerms types expands m max defs a → MakesTerms types expands n most defs b → a ≡ b }
{}

/// A rule stands for one typed rule at most, whatever the sizes.
pub fn rules_stand_for_one_typed_rule()
    ensures { (declared : Declared) (m n max most : ℕ) (tree : Rule) (a b : TypedRule)
        → ElaboratesRule declared m max tree a → ElaboratesRule declared n most tree b → a ≡ b }
{}

/// Definitions that break a rule of typing make no environment of terms, whatever the sizes.
pub fn broken_rules_make_no_environment()
    ensures { (types : Environment) (expands : Bool) (levels max n : ℕ) (defs : List Def) (environment : TermEnvironment) (at : Pos)
        → MakesTerms types expands levels max defs environment → BreaksTyping types expands n defs at → ⊥ }
{}

/// Definitions that exceed a size make no environment of terms within the sizes.
pub fn exceeded_sizes_make_no_environment()
    ensures { (types : Environment) (expands : Bool) (levels max : ℕ) (defs : List Def) (environment : TermEnvironment) (at : Pos)
        → MakesTerms types expands levels max defs environment → ExceedsTyping types expands levels max defs at → ⊥ }
{}

/// A visit of what a rule stands for never comes to what isn't defined, unless the visitor itself says so or names too few values.
pub fn typed_rules_use_what_is_defined<V: RuleVisitor>()
    ensures { FindsAllDefined V.rule_steps V.PatternVisitor.pattern_step V.ExprVisitor.expr_step
        → (tyenv : TypeTables) (env : TermTables) (declared : Declared) (levels max : ℕ) (tree : Rule) (typed : TypedRule) (made : MadeRule)
        → ShowsDeclared tyenv env declared → ElaboratesRule declared levels max tree typed → IsShownRule tyenv.names typed made
        → NeverUndefined (visits_rule V.rule_steps V.PatternVisitor.pattern_step V.ExprVisitor.expr_step env.terms made) }
{}

/// Nor does a visit of any rule of an environment of terms.
pub fn rules_of_definitions_use_what_is_defined<V: RuleVisitor>()
    ensures { FindsAllDefined V.rule_steps V.PatternVisitor.pattern_step V.ExprVisitor.expr_step
        → (tyenv : TypeTables) (env : TermTables) (types : Environment) (levels max : ℕ) (defs : List Def)
        → ShowsTerms tyenv env types levels max defs
        → All (λ (made : MadeRule).
        NeverUndefined (visits_rule V.rule_steps V.PatternVisitor.pattern_step V.ExprVisitor.expr_step env.terms made)) env.rules }
{}

/// What a rule stands for is well typed.
pub fn typed_rules_are_typed()
    ensures { (declared : Declared) (levels max : ℕ) (tree : Rule) (typed : TypedRule)
        → ElaboratesRule declared levels max tree typed → IsTypedRule declared typed }
{}

/// What a rule stands for binds its variables in order, each once and before it is used.
pub fn typed_rules_keep_scopes()
    ensures { (declared : Declared) (levels max : ℕ) (tree : Rule) (typed : TypedRule)
        → ElaboratesRule declared levels max tree typed → KeepsScopes typed }
{}

/// Each rule of an environment of terms is well typed.
pub fn rules_of_definitions_are_typed()
    ensures { (types : Environment) (expands : Bool) (levels max : ℕ) (defs : List Def) (environment : TermEnvironment)
        → MakesTerms types expands levels max defs environment → All (IsTypedRule (declared_by types expands environment)) environment.rules }
{}

/// Each binds its variables in order.
pub fn rules_of_definitions_keep_scopes()
    ensures { (types : Environment) (expands : Bool) (levels max : ℕ) (defs : List Def) (environment : TermEnvironment)
        → MakesTerms types expands levels max defs environment → All KeepsScopes environment.rules }
{}

/// What a rule stands for is at most one level deeper than the levels that it is read in, and has at most twice as many nodes as are counted.
pub fn typed_rules_keep_sizes()
    ensures { (declared : Declared) (levels max : ℕ) (tree : Rule) (typed : TypedRule)
        → ElaboratesRule declared levels max tree typed → IsWithinSizes levels max typed }
{}

/// So are the rules that definitions make.
pub fn rules_of_definitions_keep_sizes()
    ensures { (types : Environment) (expands : Bool) (levels max : ℕ) (defs : List Def) (environment : TermEnvironment)
        → MakesTerms types expands levels max defs environment → All (IsWithinSizes levels max) environment.rules }
{}

/// Each rule of an environment of terms stands at the place of its number; its root is a term with rules, of as many arguments.
pub fn rules_fit_their_terms()
    ensures { (tyenv : TypeTables) (env : TermTables) (types : Environment) (levels max : ℕ) (defs : List Def)
        → ShowsTerms tyenv env types levels max defs → HasFittingRules env }
{}

/// The trees of each rule of an environment of terms are at most one level deeper than the levels that rules are read in.
pub fn rules_are_within_sizes()
    ensures { (tyenv : TypeTables) (env : TermTables) (types : Environment) (levels max : ℕ) (defs : List Def)
        → ShowsTerms tyenv env types levels max defs → All (HasSizes (levels + 1) (2 * max)) env.rules }
{}
