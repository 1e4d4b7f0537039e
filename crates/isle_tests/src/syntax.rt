//! Tests of `isle_ast` and `isle_syntax`: gathered errors, tokens, keys and trees.
pub mod errors;
pub mod lexer;
pub mod orders;
pub mod trees;

use errors::{REPORT, report};
use lexer::tells_once;
use orders::{names_are_keys, positions_are_keys};
use std::test::Fail;
use trees::{are_copied, is_walked, terms_of};

#[test]
fn trees_and_errors_have_their_calls(rt: HostRuntime) -> Result<(), Fail> {
    let alloc = rt.alloc();
    let held = [
        are_copied(alloc)?,
        is_walked(alloc)?,
        tells_once(alloc),
        positions_are_keys(alloc)?,
        names_are_keys(alloc, "(decl f (b a a) a)")?,
    ];
    let text = "(rule (f (g x) (h y @ (k _))) (let ((m u8 (p 1))) (q m)))";
    let terms = terms_of(alloc, text)?;
    let report = report(alloc)?;
    if held == [true, true, true, true, true]
        && terms == (6091522, 4250)
        && report.as_str() == REPORT
    {
        Ok(())
    } else {
        Err(Fail::from("another answer"))
    }
}
