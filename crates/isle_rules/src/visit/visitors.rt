//! The traits of visitors of patterns and of expressions, with a call for each thing that one is told.
ghost use Rattle.std.specs.Prelude.{List};
ghost use Rattle.isle_rules.specs.Visits.Runs.{Run, silent, listed};
ghost use Rattle.isle_rules.specs.Visits.VisitorCalls.{PatternCall, match_equal, match_bool, match_int, match_prim};
ghost use Rattle.isle_rules.specs.Visits.VisitorCalls.{match_variant, extract_struct, extract_outputs};
ghost use Rattle.isle_rules.specs.Visits.VisitorCalls.{ExprCall, const_bool, const_int, const_prim};
ghost use Rattle.isle_rules.specs.Visits.VisitorCalls.{create_variant, create_struct, construct};

use crate::visit::VisitFault;
use isle_types::{Sym, TermId, TypeId, VariantId};

/// What is told of a pattern. Each call is one step of the visitor.
pub trait PatternVisitor {
    /// The visitor's name for a value that is matched.
    type PatternId: Copy;

    ghost pattern_step: { PatternCall Self.PatternId → Run Self (List Self.PatternId) };

    /// The values `a` and `b` are to be equal.
    fn add_match_equal(
        &mut self,
        a: Self::PatternId,
        b: Self::PatternId,
        ty: TypeId,
    ) -> Result<(), VisitFault>
        ensures { pattern_step (match_equal a b ty) self.old (silent result) self.new };

    /// The value is to be this boolean.
    fn add_match_bool(
        &mut self,
        input: Self::PatternId,
        ty: TypeId,
        bool_val: bool,
    ) -> Result<(), VisitFault>
        ensures { pattern_step (match_bool input ty bool_val) self.old (silent result) self.new };

    /// The value is to be this integer.
    fn add_match_int(
        &mut self,
        input: Self::PatternId,
        ty: TypeId,
        int_val: i128,
    ) -> Result<(), VisitFault>
        ensures { pattern_step (match_int input ty int_val) self.old (silent result) self.new };

    /// The value is to be this constant.
    fn add_match_prim(
        &mut self,
        input: Self::PatternId,
        ty: TypeId,
        val: Sym,
    ) -> Result<(), VisitFault>
        ensures { pattern_step (match_prim input ty val) self.old (silent result) self.new };

    /// The value is to be this variant. The answer names each field.
    fn add_match_variant(
        &mut self,
        input: Self::PatternId,
        input_ty: TypeId,
        arg_tys: &[TypeId],
        variant: VariantId,
    ) -> Result<Vec<Self::PatternId>, VisitFault>
        ensures { pattern_step (match_variant input input_ty arg_tys.now variant) self.old (listed result) self.new };

    /// The value is a struct. The answer names each field.
    fn add_extract_struct(
        &mut self,
        input: Self::PatternId,
        input_ty: TypeId,
        arg_tys: &[TypeId],
    ) -> Result<Vec<Self::PatternId>, VisitFault>
        ensures { pattern_step (extract_struct input input_ty arg_tys.now) self.old (listed result) self.new };

    /// The value is given to an extractor. The answer names each output.
    fn add_extract(
        &mut self,
        input: Self::PatternId,
        input_ty: TypeId,
        output_tys: Vec<TypeId>,
        term: TermId,
        infallible: bool,
        multi: bool,
    ) -> Result<Vec<Self::PatternId>, VisitFault>
        ensures { pattern_step (extract_outputs input input_ty output_tys.items term infallible multi) self.old (listed result) self.new };
}

/// What is told of an expression. Each call is one step of the visitor.
pub trait ExprVisitor {
    /// The visitor's name for a value that is made.
    type ExprId: Copy;

    ghost expr_step: { ExprCall Self.ExprId → Run Self Self.ExprId };

    /// A boolean.
    fn add_const_bool(&mut self, ty: TypeId, val: bool) -> Result<Self::ExprId, VisitFault>
        ensures { expr_step (const_bool ty val) self.old result self.new };

    /// An integer.
    fn add_const_int(&mut self, ty: TypeId, val: i128) -> Result<Self::ExprId, VisitFault>
        ensures { expr_step (const_int ty val) self.old result self.new };

    /// A constant.
    fn add_const_prim(&mut self, ty: TypeId, val: Sym) -> Result<Self::ExprId, VisitFault>
        ensures { expr_step (const_prim ty val) self.old result self.new };

    /// A variant with these fields.
    fn add_create_variant(
        &mut self,
        inputs: Vec<(Self::ExprId, TypeId)>,
        ty: TypeId,
        variant: VariantId,
    ) -> Result<Self::ExprId, VisitFault>
        ensures { expr_step (create_variant inputs.items ty variant) self.old result self.new };

    /// A struct with these fields.
    fn add_create_struct(
        &mut self,
        inputs: Vec<(Self::ExprId, TypeId)>,
        ty: TypeId,
    ) -> Result<Self::ExprId, VisitFault>
        ensures { expr_step (create_struct inputs.items ty) self.old result self.new };

    /// What a constructor gives for these arguments.
    fn add_construct(
        &mut self,
        inputs: Vec<(Self::ExprId, TypeId)>,
        ty: TypeId,
        term: TermId,
        pure: bool,
        infallible: bool,
        multi: bool,
        rec: bool,
    ) -> Result<Self::ExprId, VisitFault>
        ensures { expr_step (construct inputs.items ty term pure infallible multi rec) self.old result self.new };
}
