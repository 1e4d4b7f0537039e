//! Templates of extractors: made of patterns, and filled with patterns for their arguments.
ghost use Rattle.std.specs.Prelude.{◌≡◌, false, [], map, slice_get, IfOk};
ghost use Rattle.std.specs.Option.{option_map};
ghost use Rattle.isle_ast.specs.Trees.PatternShape.{pattern_of, patterns_of};
ghost use Rattle.isle_ast.specs.Inside.Trees.Innermost.{names_bound};
ghost use Rattle.isle_ast.specs.Trees.TreeCalls.{has_macro_arg, has_macro_args};
ghost use Rattle.isle_ast.specs.Trees.Templates.{position_of_name, is_wildcard, argument_for, template_tree, template_trees, filled, all_filled};

use crate::ast::wrap::wrap;
use crate::ast::{Ident, Pattern, Patterns};
use crate::pos::Pos;
use std::alloc::{AllocError, Global};

/// The first place at which a name's text occurs among names.
fn place_of(names: &[Ident], name: &Ident) -> Option<usize>
    ensures { result ≡ position_of_name names.now name.now.0 }
{
    for i in 0..names.len() {
        if names[i].0 == name.0 {
            return Some(i);
        }
    }
    None
}

/// A copy of the pattern for an argument of a template, or `None` where it is missing.
fn given(macro_args: &[Pattern], index: usize) -> Result<Option<Pattern>, AllocError>
    ensures { IfOk result (λ made. option_map pattern_of made ≡ slice_get (map pattern_of macro_args.now) index) }
{
    match macro_args.get(index) {
        Some(pattern) => Ok(Some(pattern.clone()?)),
        None => Ok(None),
    }
}

impl Pattern {
    fn is_wildcard(&self) -> bool
        ensures { result ≡ is_wildcard (pattern_of self.now) }
    {
        matches!(self, Pattern::Wildcard { .. })
    }

    /// The argument of a template in the place of this variable or binding, where its name is listed.
    fn argument(&self, name: &Ident, pos: Pos, macro_args: &[Ident]) -> Result<Pattern, AllocError>
        ensures { IfOk result (λ made. pattern_of made
            ≡ argument_for (position_of_name macro_args.now name.now.0) pos (pattern_of self.now)) }
    {
        match place_of(macro_args, name) {
            Some(index) => Ok(Pattern::MacroArg { index, pos }),
            None => self.clone(),
        }
    }

    /// The template of this pattern: an argument stands in it for each variable, and each binding of a name to a
    /// wildcard, whose name is listed.
    #[cycle(template)]
    pub fn make_macro_template(
        &self,
        alloc: Global,
        macro_args: &[Ident],
    ) -> Result<Pattern, AllocError>
        requires { has_macro_arg (pattern_of self.now) ≡ false }
        ensures { IfOk result (λ made. pattern_of made ≡ template_tree macro_args.now (pattern_of self.now)) }
    {
        let mut names = Vec::new(alloc);
        let mut at = self;
        while let Pattern::BindPattern { var, subpat, pos } = at {
            if subpat.get().is_wildcard() {
                return wrap(alloc, names, at.argument(var, *pos, macro_args)?);
            }
            names.push((var.clone()?, *pos))?;
            at = subpat.get();
        }
        wrap(alloc, names, at.make_innermost_template(alloc, macro_args)?)
    }

    /// The template of a pattern that is no binding.
    #[cycle(template)]
    #[tactic(auto, using(crate::proofs::Trees::PatternSizes::most_pattern_size))]
    fn make_innermost_template(
        &self,
        alloc: Global,
        macro_args: &[Ident],
    ) -> Result<Pattern, AllocError>
        requires free { has_macro_arg (pattern_of self.now) ≡ false }
        requires no_binding { names_bound (pattern_of self.now) ≡ [] }
        ensures { IfOk result (λ made. pattern_of made ≡ template_tree macro_args.now (pattern_of self.now)) }
    {
        match self {
            Pattern::Var { var, pos } => self.argument(var, *pos, macro_args),
            Pattern::BindPattern { .. } => unreachable!(),
            Pattern::Term { sym, args, pos } => Ok(Pattern::Term {
                sym: sym.clone()?,
                args: Patterns::new(make_macro_templates(alloc, args.as_slice(), macro_args)?),
                pos: *pos,
            }),
            Pattern::And { subpats, pos } => Ok(Pattern::And {
                subpats: Patterns::new(make_macro_templates(
                    alloc,
                    subpats.as_slice(),
                    macro_args,
                )?),
                pos: *pos,
            }),
            Pattern::ConstBool { .. }
            | Pattern::ConstInt { .. }
            | Pattern::ConstPrim { .. }
            | Pattern::Wildcard { .. }
            | Pattern::MacroArg { .. } => self.clone(),
        }
    }

    /// This template with the patterns for its arguments, or `None` where an argument's pattern is missing.
    #[cycle(substitution)]
    #[tactic(auto, using(crate::proofs::Trees::Innermost::innermost_size, crate::proofs::Trees::Innermost::innermost_alone))]
    pub fn subst_macro_args(
        &self,
        alloc: Global,
        macro_args: &[Pattern],
    ) -> Result<Option<Pattern>, AllocError>
        ensures { IfOk result (λ made. option_map pattern_of made
            ≡ filled (map pattern_of macro_args.now) (pattern_of self.now)) }
    {
        let Some(made) = self.innermost().subst_innermost(alloc, macro_args)? else {
            return Ok(None);
        };
        let names = self.names_bound(alloc)?;
        Ok(Some(wrap(alloc, names, made)?))
    }

    /// This template, which is no binding, with the patterns for its arguments.
    #[cycle(substitution)]
    #[tactic(auto, using(crate::proofs::Trees::PatternSizes::most_pattern_size))]
    fn subst_innermost(
        &self,
        alloc: Global,
        macro_args: &[Pattern],
    ) -> Result<Option<Pattern>, AllocError>
        requires { names_bound (pattern_of self.now) ≡ [] }
        ensures { IfOk result (λ made. option_map pattern_of made
            ≡ filled (map pattern_of macro_args.now) (pattern_of self.now)) }
    {
        match self {
            Pattern::BindPattern { .. } => unreachable!(),
            Pattern::Term { sym, args, pos } => {
                let Some(args) = subst_all(alloc, args.as_slice(), macro_args)? else {
                    return Ok(None);
                };
                Ok(Some(Pattern::Term {
                    sym: sym.clone()?,
                    args: Patterns::new(args),
                    pos: *pos,
                }))
            }
            Pattern::And { subpats, pos } => {
                let Some(subpats) = subst_all(alloc, subpats.as_slice(), macro_args)? else {
                    return Ok(None);
                };
                Ok(Some(Pattern::And {
                    subpats: Patterns::new(subpats),
                    pos: *pos,
                }))
            }
            Pattern::MacroArg { index, .. } => given(macro_args, *index),
            Pattern::Var { .. }
            | Pattern::ConstBool { .. }
            | Pattern::ConstInt { .. }
            | Pattern::ConstPrim { .. }
            | Pattern::Wildcard { .. } => Ok(Some(self.clone()?)),
        }
    }
}

#[cycle(template)]
#[tactic(auto, using(crate::proofs::Trees::PatternSizes::most_pattern_size, crate::proofs::Trees::Templates::macro_free))]
fn make_macro_templates(
    alloc: Global,
    patterns: &[Pattern],
    macro_args: &[Ident],
) -> Result<Vec<Pattern>, AllocError>
    requires { has_macro_args (patterns_of patterns.now) ≡ false }
    ensures { IfOk result (λ made. patterns_of made.items ≡ template_trees macro_args.now (patterns_of patterns.now)) }
{
    let mut all = Vec::new(alloc);
    for pattern in patterns {
        all.push(pattern.make_macro_template(alloc, macro_args)?)?;
    }
    Ok(all)
}

#[cycle(substitution)]
#[tactic(auto, using(crate::proofs::Trees::PatternSizes::most_pattern_size))]
fn subst_all(
    alloc: Global,
    patterns: &[Pattern],
    macro_args: &[Pattern],
) -> Result<Option<Vec<Pattern>>, AllocError>
    ensures { IfOk result (λ made. option_map (λ all. patterns_of all.items) made
        ≡ all_filled (map pattern_of macro_args.now) (patterns_of patterns.now)) }
{
    let mut all = Vec::new(alloc);
    for pattern in patterns {
        let Some(made) = pattern.subst_macro_args(alloc, macro_args)? else {
            return Ok(None);
        };
        all.push(made)?;
    }
    Ok(Some(all))
}
