//! A builder of a rule's own sites and tests from what it is told of the rule.
ghost use Rattle.std.specs.Prelude.{◌≡◌, ◌≤◌, ◌<◌, [], IfOk, IfErr};
ghost use Rattle.isle_rules.specs.declared.visit.fault.VisitFault.TheVariants.{Size, Memory};
ghost use Rattle.isle_rules.specs.Visits.Runs.{silent, listed, in_turn};
ghost use Rattle.isle_rules.specs.Visits.VisitorCalls.{extract_outputs};
ghost use Rattle.isle_blocks.specs.Inside.Building.Steps.{values_of, each_some};
ghost use Rattle.isle_blocks.specs.Inside.Building.Building.{BuildsRule};
ghost use Rattle.isle_blocks.specs.Building.Naming.{BuiltAsDefined, UsesWhatIsDefined, HasTooManySites};

mod contents;

use crate::binding::Binding;
use crate::builder::contents::calls_within;
use crate::constraint::Constraint;
use crate::ids::{BindingId, TupleIndex};
use crate::sites::{SiteFault, Sites};
use isle_ast::Seq;
use isle_rules::{
    ExprPart, ExprVisitor, PatternPart, PatternVisitor, Rule, RuleVisitor, TermEnv, VisitFault,
};
use isle_types::{Sym, TermId, TypeId, VarId, VariantId};
use std::alloc::{AllocError, Global};
use std::collections::HashMap;
use std::marker::Model;

/// What is gathered of a rule while it is visited.
#[derive(Drop)]
pub(crate) struct RuleSetBuilder {
    alloc: Global,
    sites: Sites,
    has: Vec<(BindingId, Constraint)>,
    same: Vec<(BindingId, BindingId)>,
    impure: Vec<BindingId>,
}

impl Model for RuleSetBuilder {
    ghost use Rattle.isle_blocks.specs.Inside.Building.Gathering.{Gathered};

    ghost Value = { Gathered };

    ghost view = { λ b. record { sites = b.sites; has = b.has.items; same = b.same.items; impure = b.impure.items } };
}

/// Which parts of a value.
#[derive(Clone, Copy)]
enum Parts {
    Variant(VariantId),
    Struct,
    Tuple,
}

impl Parts {
    ghost use Rattle.isle_blocks.specs.Inside.Building.Parts.{part_site};

    /// The site of a part of a value.
    fn site(self, source: BindingId, field: TupleIndex) -> Binding
        ensures { result ≡ part_site self source field.0 }
    {
        match self {
            Parts::Variant(variant) => Binding::MatchVariant {
                source,
                variant,
                field,
            },
            Parts::Struct => Binding::ExtractStruct { source, field },
            Parts::Tuple => Binding::MatchTuple { source, field },
        }
    }
}

/// So many fields or places; they are numbered up to 255.
fn count_of(count: usize) -> Result<TupleIndex, VisitFault>
    ensures ok { IfOk result (λ index. (count ≤ 255) × (index ≡ record { 0 = count })) }
    ensures err { IfErr result (λ fault. (255 < count) × (fault ≡ Size)) }
{
    match TupleIndex::try_from(count) {
        Ok(index) => Ok(index),
        Err(_) => Err(VisitFault::Size),
    }
}

/// The numbers of values, without their types.
fn values(alloc: Global, inputs: &[(BindingId, TypeId)]) -> Result<Vec<BindingId>, AllocError>
    ensures { IfOk result (λ ids. ids.items ≡ values_of inputs.now) }
{
    inputs.iter().map(|input| input.0).collect(alloc)
}

/// That options are not to be empty.
fn some_of_each(
    alloc: Global,
    calls: &[BindingId],
) -> Result<Vec<(BindingId, Constraint)>, AllocError>
    ensures { IfOk result (λ tests. tests.items ≡ each_some calls.now) }
{
    calls
        .iter()
        .map(|call| (*call, Constraint::Some))
        .collect(alloc)
}

impl RuleSetBuilder {
    ghost use Rattle.isle_blocks.specs.Inside.Building.Gathering.{nothing_gathered, interns, interns_each, takes_demand, sites_from};
    ghost use Rattle.isle_blocks.specs.Inside.Building.Gathering.{extracted, outputs, constructed, numbers, keeps};
    ghost use Rattle.isle_blocks.specs.Inside.Building.Steps.{makes, takes};
    ghost use Rattle.isle_blocks.specs.Inside.Building.Parts.{part_site};

    /// Nothing is gathered yet. There is room for what most rules have: a list that grows past a kilobyte has the C library
    /// join all that was freed.
    fn new(alloc: Global) -> Result<Self, AllocError>
        ensures { IfOk result (λ made. made ≡ nothing_gathered) }
    {
        let sites = Sites::with_capacity(alloc, 20)?;
        let has = Vec::with_capacity(alloc, 16)?;
        Ok(RuleSetBuilder {
            alloc,
            sites,
            has,
            same: Vec::new(alloc),
            impure: Vec::new(alloc),
        })
    }

    /// The number of a site, which is there now.
    fn intern(&mut self, binding: Binding) -> Result<BindingId, VisitFault>
        ensures { interns binding self.old result self.new }
    {
        match self.sites.intern(binding) {
            Ok(id) => Ok(id),
            Err(SiteFault::Size) => Err(VisitFault::Size),
            Err(SiteFault::Memory) => Err(VisitFault::Memory),
        }
    }

    /// A test of a site.
    fn demand(&mut self, site: BindingId, test: Constraint) -> Result<(), VisitFault>
        ensures { takes_demand site test self.old (silent result) self.new }
    {
        self.has.push((site, test))?;
        Ok(())
    }

    /// The parts of a value.
    fn intern_parts(
        &mut self,
        parts: Parts,
        source: BindingId,
        count: TupleIndex,
    ) -> Result<Vec<BindingId>, VisitFault>
        ensures { interns_each (sites_from (part_site parts source) 0 count.0) [] self.old (listed result) self.new }
    {
        let mut ids = Vec::new(self.alloc);
        for field in 0..count.0 {
            let id = self.intern(parts.site(source, TupleIndex(field)))?;
            ids.push(id)?;
        }
        Ok(ids)
    }

    /// A test of a value, and the parts that passing it makes.
    fn open(
        &mut self,
        source: BindingId,
        test: Constraint,
        parts: Parts,
        count: TupleIndex,
    ) -> Result<Vec<BindingId>, VisitFault>
        ensures { in_turn (takes_demand source test) (λ _. interns_each (sites_from (part_site parts source) 0 count.0) []) self.old
            (listed result) self.new }
    {
        self.demand(source, test)?;
        self.intern_parts(parts, source, count)
    }

    /// What an extractor's call gives.
    fn extracted(
        &mut self,
        multi: bool,
        infallible: bool,
        call: BindingId,
    ) -> Result<BindingId, VisitFault>
        ensures { extracted multi infallible call self.old result self.new }
    {
        if multi {
            return self.intern(Binding::Iterator { source: call });
        }
        if infallible {
            return Ok(call);
        }
        self.demand(call, Constraint::Some)?;
        self.intern(Binding::MatchSome { source: call })
    }

    /// The outputs of what an extractor gives.
    fn outputs(&mut self, value: BindingId, count: TupleIndex) -> Result<Vec<BindingId>, VisitFault>
        ensures { outputs count.0 value self.old (listed result) self.new }
    {
        if count.0 == 1 {
            let mut one = Vec::new(self.alloc);
            one.push(value)?;
            return Ok(one);
        }
        self.intern_parts(Parts::Tuple, value, count)
    }

    /// What a constructor's call gives.
    fn constructed(
        &mut self,
        multi: bool,
        infallible: bool,
        call: BindingId,
    ) -> Result<BindingId, VisitFault>
        ensures { constructed multi infallible call self.old result self.new }
    {
        if multi {
            return self.intern(Binding::Iterator { source: call });
        }
        if infallible {
            return Ok(call);
        }
        self.intern(Binding::MatchSome { source: call })
    }

    /// The number of a call: 0 for a pure one; impure ones are counted from 1, and a vector of more is want of memory.
    fn instance(&self, pure: bool) -> Result<u32, VisitFault>
        ensures { numbers pure self.now result self.now }
    {
        if pure {
            return Ok(0);
        }
        let made = self.impure.len();
        if made >= u32::MAX as usize {
            return Err(VisitFault::Memory);
        }
        Ok(made as u32 + 1)
    }

    /// What a call gives, which is kept of an impure one.
    fn keep(&mut self, pure: bool, value: BindingId) -> Result<BindingId, VisitFault>
        ensures { keeps pure value self.old result self.new }
    {
        if pure {
            return Ok(value);
        }
        self.impure.push(value)?;
        Ok(value)
    }

    /// What a constructor's call of these arguments gives.
    fn construct(
        &mut self,
        parameters: Seq<BindingId>,
        term: TermId,
        pure: bool,
        infallible: bool,
        multi: bool,
    ) -> Result<BindingId, VisitFault>
        ensures { makes parameters term pure infallible multi self.old result self.new }
    {
        let instance = self.instance(pure)?;
        let call = self.intern(Binding::Constructor {
            term,
            parameters,
            instance,
        })?;
        let value = self.constructed(multi, infallible, call)?;
        self.keep(pure, value)
    }

    /// The outputs of an extractor's call.
    fn extract(
        &mut self,
        input: BindingId,
        term: TermId,
        infallible: bool,
        multi: bool,
        count: TupleIndex,
    ) -> Result<Vec<BindingId>, VisitFault>
        ensures { takes input term infallible multi count.0 self.old (listed result) self.new }
    {
        let call = self.intern(Binding::Extractor {
            term,
            parameter: input,
        })?;
        let value = self.extracted(multi, infallible, call)?;
        self.outputs(value, count)
    }
}

impl PatternVisitor for RuleSetBuilder {
    ghost use Rattle.isle_blocks.specs.Inside.Building.Steps.{pattern_adds};

    type PatternId = BindingId;

    ghost pattern_step = { pattern_adds };

    fn add_match_equal(
        &mut self,
        a: BindingId,
        b: BindingId,
        _ty: TypeId,
    ) -> Result<(), VisitFault> {
        if a != b {
            self.same.push((a, b))?;
        }
        Ok(())
    }

    fn add_match_bool(
        &mut self,
        input: BindingId,
        ty: TypeId,
        bool_val: bool,
    ) -> Result<(), VisitFault> {
        self.demand(input, Constraint::ConstBool { val: bool_val, ty })
    }

    fn add_match_int(
        &mut self,
        input: BindingId,
        ty: TypeId,
        int_val: i128,
    ) -> Result<(), VisitFault> {
        self.demand(input, Constraint::ConstInt { val: int_val, ty })
    }

    fn add_match_prim(
        &mut self,
        input: BindingId,
        _ty: TypeId,
        val: Sym,
    ) -> Result<(), VisitFault> {
        self.demand(input, Constraint::ConstPrim { val })
    }

    fn add_match_variant(
        &mut self,
        input: BindingId,
        input_ty: TypeId,
        arg_tys: &[TypeId],
        variant: VariantId,
    ) -> Result<Vec<BindingId>, VisitFault> {
        let fields = count_of(arg_tys.len())?;
        let test = Constraint::Variant {
            ty: input_ty,
            variant,
            fields,
        };
        self.open(input, test, Parts::Variant(variant), fields)
    }

    fn add_extract_struct(
        &mut self,
        input: BindingId,
        input_ty: TypeId,
        arg_tys: &[TypeId],
    ) -> Result<Vec<BindingId>, VisitFault> {
        let fields = count_of(arg_tys.len())?;
        let test = Constraint::Struct {
            ty: input_ty,
            fields,
        };
        self.open(input, test, Parts::Struct, fields)
    }

    fn add_extract(
        &mut self,
        input: BindingId,
        _input_ty: TypeId,
        output_tys: Vec<TypeId>,
        term: TermId,
        infallible: bool,
        multi: bool,
    ) -> Result<Vec<BindingId>, VisitFault>
        ensures { pattern_adds (extract_outputs input _input_ty output_tys.items term infallible multi) self.old (listed result) self.new }
    {
        let count = count_of(output_tys.len())?;
        self.extract(input, term, infallible, multi, count)
    }
}

impl ExprVisitor for RuleSetBuilder {
    ghost use Rattle.isle_rules.specs.Visits.VisitorCalls.{create_variant, create_struct, construct};
    ghost use Rattle.isle_blocks.specs.Inside.Building.Steps.{expr_adds};

    type ExprId = BindingId;

    ghost expr_step = { expr_adds };

    fn add_const_bool(&mut self, ty: TypeId, val: bool) -> Result<BindingId, VisitFault> {
        self.intern(Binding::ConstBool { val, ty })
    }

    fn add_const_int(&mut self, ty: TypeId, val: i128) -> Result<BindingId, VisitFault> {
        self.intern(Binding::ConstInt { val, ty })
    }

    fn add_const_prim(&mut self, _ty: TypeId, val: Sym) -> Result<BindingId, VisitFault> {
        self.intern(Binding::ConstPrim { val })
    }

    fn add_create_variant(
        &mut self,
        inputs: Vec<(BindingId, TypeId)>,
        ty: TypeId,
        variant: VariantId,
    ) -> Result<BindingId, VisitFault>
        ensures { expr_adds (create_variant inputs.items ty variant) self.old result self.new }
    {
        let fields = values(self.alloc, inputs.as_slice())?;
        self.intern(Binding::MakeVariant {
            ty,
            variant,
            fields: Seq::new(fields),
        })
    }

    fn add_create_struct(
        &mut self,
        inputs: Vec<(BindingId, TypeId)>,
        ty: TypeId,
    ) -> Result<BindingId, VisitFault>
        ensures { expr_adds (create_struct inputs.items ty) self.old result self.new }
    {
        let fields = values(self.alloc, inputs.as_slice())?;
        self.intern(Binding::MakeStruct {
            ty,
            fields: Seq::new(fields),
        })
    }

    fn add_construct(
        &mut self,
        inputs: Vec<(BindingId, TypeId)>,
        _ty: TypeId,
        term: TermId,
        pure: bool,
        infallible: bool,
        multi: bool,
        _rec: bool,
    ) -> Result<BindingId, VisitFault>
        ensures { expr_adds (construct inputs.items _ty term pure infallible multi _rec) self.old result self.new }
    {
        let parameters = values(self.alloc, inputs.as_slice())?;
        self.construct(Seq::new(parameters), term, pure, infallible, multi)
    }
}

impl RuleVisitor for RuleSetBuilder {
    ghost use Rattle.isle_rules.specs.Visits.RuleSteps.{in_pattern, in_expr};
    ghost use Rattle.isle_rules.specs.Visits.RuleEvents.{visits_typed};
    ghost use Rattle.isle_rules.specs.Visits.Events.{visits};
    ghost use Rattle.isle_rules.specs.Visits.VisitScopes.{scope_of, scope_left};
    ghost use Rattle.isle_rules.specs.Visits.InternedTrees.{pattern_of};
    ghost use Rattle.isle_blocks.specs.Inside.Building.Steps.{pattern_adds, expr_adds, rule_adds};

    type PatternVisitor = RuleSetBuilder;

    type ExprVisitor = RuleSetBuilder;

    type Expr = BindingId;

    ghost rule_steps = { rule_adds };

    fn add_arg(&mut self, index: usize, _ty: TypeId) -> Result<BindingId, VisitFault> {
        let index = count_of(index)?;
        self.intern(Binding::Argument { index })
    }

    fn add_pattern(
        &mut self,
        part: PatternPart<'_, RuleSetBuilder>,
    ) -> Result<HashMap<VarId, BindingId>, VisitFault>
        ensures { in_pattern rule_adds (visits pattern_adds part.entry.termenv.now.terms (pattern_of part.entry.pattern.now) part.entry.input
            (scope_of part.entry.vars)) self.old (scope_left result) self.new }
    {
        part.visit(self)
    }

    fn add_expr(&mut self, part: ExprPart<'_, RuleSetBuilder>) -> Result<BindingId, VisitFault>
        ensures { in_expr rule_adds (visits_typed expr_adds part.entry.termenv.now.terms part.entry.expr.now (scope_of part.entry.vars))
            self.old result self.new }
    {
        let visited = part.visit(self)?;
        Ok(visited.value)
    }

    fn expr_as_pattern(&mut self, expr: BindingId) -> Result<BindingId, VisitFault> {
        let calls = calls_within(self.alloc, self.sites.bindings(), expr)?;
        let tests = some_of_each(self.alloc, calls.as_slice())?;
        self.has.extend_from_slice(tests.as_slice())?;
        Ok(expr)
    }

    fn pattern_as_expr(&mut self, pattern: BindingId) -> Result<BindingId, VisitFault> {
        Ok(pattern)
    }
}

/// What a rule's visit has made.
#[derive(Drop)]
pub(crate) struct BuiltRule {
    pub sites: Sites,
    pub has: Vec<(BindingId, Constraint)>,
    pub same: Vec<(BindingId, BindingId)>,
    pub impure: Vec<BindingId>,
    pub result: BindingId,
}

/// The sites of a rule, each once, and what the rule demands of them.
pub(crate) fn build_rule(
    alloc: Global,
    termenv: &TermEnv,
    rule: &Rule,
) -> Result<BuiltRule, VisitFault>
    ensures run { BuildsRule termenv.now.terms rule.now result }
    ensures built { IfOk result (λ built. BuiltAsDefined termenv.now rule.now built) }
    ensures defined { IfErr result (λ fault. UsesWhatIsDefined termenv.now rule.now fault) }
    ensures full { IfErr result (λ fault. fault ≡ VisitFault.Size → HasTooManySites termenv.now rule.now) }
{
    let mut builder = RuleSetBuilder::new(alloc)?;
    let result = rule.visit(alloc, &mut builder, termenv)?;
    let RuleSetBuilder {
        alloc: _alloc,
        sites,
        has,
        same,
        impure,
    } = builder;
    Ok(BuiltRule {
        sites,
        has,
        same,
        impure,
        result,
    })
}
