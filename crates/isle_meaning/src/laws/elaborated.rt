//! Rules as elaboration makes them, whatever `multi` terms they ask.

ghost use Rattle.isle_meaning.specs.Laws.Elaborated.{DefinitionsAreElaborated, ElaboratedAreKinded, NoneIsMultiAndPartial, RulesWithoutLetsOpen};
ghost use Rattle.isle_meaning.specs.Laws.Elaborated.{TypedRulesAreElaborated};

/// The sites that such a rule needs, demands and gives are of their kinds, and its demands of their types.
pub fn elaborated_are_kinded()
    ensures { ElaboratedAreKinded }
{}

/// Each well typed rule that keeps scopes is one.
pub fn typed_rules_are_elaborated()
    ensures { TypedRulesAreElaborated }
{}

/// Each rule of definitions is one.
pub fn definitions_are_elaborated()
    ensures { DefinitionsAreElaborated }
{}

/// No term that definitions make is `multi` and partial.
pub fn none_is_multi_and_partial()
    ensures { NoneIsMultiAndPartial }
{}

/// Where the if-lets of a rule have no `let`, each content that their multi calls are made of has its test.
pub fn rules_without_lets_open()
    ensures { RulesWithoutLetsOpen }
{}
