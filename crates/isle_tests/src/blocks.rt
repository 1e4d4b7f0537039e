//! Tests of `isle_blocks`: sites and tests as keys, tests that can't pass, rules that are left out, and the terms of sites.
ghost use Rattle.std.specs.Prelude.{All};
ghost use Rattle.isle_blocks.specs.Bindings.{MakesKnownVariant};

use crate::syntax::orders::are_keys;
use crate::terms::environments;
use isle_blocks::laws::sites_have_terms;
use isle_blocks::{Binding, BindingId, Constraint, TupleIndex, build, check};
use isle_rules::TermEnv;
use isle_syntax::Seq;
use isle_types::{TermId, TypeEnv, TypeId, VariantId};
use std::alloc::{AllocError, Global};
use std::test::Fail;

/// A call of a term with two sites.
fn called(alloc: Global, parameters: [u16; 2], instance: u32) -> Result<Binding, AllocError> {
    let [first, second] = parameters;
    let parameters = vec![in alloc; BindingId(first), BindingId(second)]?;
    Ok(Binding::Constructor {
        term: TermId(0),
        parameters: Seq::new(parameters),
        instance,
    })
}

/// Whether sites are keys: by their kinds, and within one by their fields in order.
fn sites_are_keys(alloc: Global) -> Result<bool, AllocError> {
    let some = Binding::MakeSome {
        inner: BindingId(0),
    };
    let keys = [some, called(alloc, [1, 2], 0)?, called(alloc, [1, 3], 0)?];
    let (second, other) = (called(alloc, [1, 2], 0)?, called(alloc, [1, 2], 1)?);
    are_keys(alloc, &keys, &second, &other)
}

const fn variant(ty: usize, variant: usize) -> Constraint {
    Constraint::Variant {
        ty: TypeId(ty),
        variant: VariantId(variant),
        fields: TupleIndex(2),
    }
}

const fn int(val: i128, ty: usize) -> Constraint {
    Constraint::ConstInt {
        val,
        ty: TypeId(ty),
    }
}

fn tests_are_keys(alloc: Global) -> Result<bool, AllocError> {
    let keys = [Constraint::Some, variant(13, 4), int(5, 1)];
    are_keys(alloc, &keys, &variant(13, 4), &variant(13, 5))
}

/// Whether a test is told from another variant that is made, and from another literal, and from nothing else.
fn are_told_apart(alloc: Global) -> bool {
    let made = Binding::MakeVariant {
        ty: TypeId(13),
        variant: VariantId(4),
        fields: Seq::new(Vec::new(alloc)),
    };
    let literal = Binding::ConstInt {
        val: 5,
        ty: TypeId(1),
    };
    variant(13, 4).compatible(&made)
        && !variant(13, 5).compatible(&made)
        && !variant(14, 4).compatible(&made)
        && int(5, 1).compatible(&made)
        && int(5, 1).compatible(&literal)
        && !int(6, 1).compatible(&literal)
        && !int(5, 2).compatible(&literal)
        && variant(13, 4).compatible(&literal)
}

/// Whether a rule that never matches, since no value is both 1 and 2, is left out of its rule set, and its sites too.
fn is_left_out(alloc: Global, text: &str) -> Result<bool, Fail> {
    let (_tyenv, termenv) = environments(alloc, text)?;
    let Ok(made) = build(alloc, &termenv) else {
        return Err(Fail::from("rule sets"));
    };
    match made.sets.as_slice() {
        [set] => Ok(
            set.1.rules().len() == 1 && set.1.bindings().len() == 2 && made.unreachable.len() == 1,
        ),
        _ => Ok(false),
    }
}

/// The term of each site, a line each.
fn write_terms(
    out: &mut String,
    tyenv: &TypeEnv,
    termenv: &TermEnv,
    sites: &[Binding],
) -> Result<(), AllocError>
    requires { All (MakesKnownVariant tyenv.now termenv.now) sites.now }
{
    for site in sites {
        let line = format!(in *out.allocator(); "{:?}\n", site.term(tyenv, termenv))?;
        out.push_str(line.as_str())?;
    }
    Ok(())
}

/// The terms of the sites of a text's rules, which are accepted.
fn terms_of_sites(alloc: Global, text: &str) -> Result<String, Fail> {
    let (tyenv, termenv) = environments(alloc, text)?;
    let sets = check(alloc, &termenv)?;
    sites_have_terms();
    let mut out = String::new(alloc);
    for set in &sets {
        write_terms(&mut out, &tyenv, &termenv, set.1.bindings())?;
    }
    Ok(out)
}

/// An argument has no term, a variant that a rule makes its own, and a call the term that is called, but no value of a multi call.
#[test]
fn rule_sets_have_their_calls(rt: HostRuntime) -> Result<(), Fail> {
    let alloc = rt.alloc();
    let held = [
        sites_are_keys(alloc)?,
        tests_are_keys(alloc)?,
        are_told_apart(alloc),
        is_left_out(
            alloc,
            "(decl f (u8) u8) (rule (f (and 1 2)) 1) (rule (f 3) 2)",
        )?,
    ];
    let text = "(type A (enum (V (a u8)))) (decl g (A) A) (extern constructor g g)
        (decl f (u8) A) (rule (f x) (g (A.V x)))
        (decl multi m (u8) u8) (extern constructor m m) (decl multi h (u8) u8) (rule (h x) (m x))";
    let terms = terms_of_sites(alloc, text)?;
    let wanted = "None\nSome(TermId(4))\nSome(TermId(0))\nNone\nSome(TermId(2))\nNone\n";
    if held == [true, true, true, true] && terms.as_str() == wanted {
        Ok(())
    } else {
        Err(Fail::from("another answer"))
    }
}
