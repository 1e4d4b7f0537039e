//! Programs of one text.
use isle_ast::files::Files;
use isle_run::{Program, compile};
use std::alloc::{AllocError, Global};
use std::rc::Rc;

/// The program of a text; one that isn't accepted is told as a refusal of memory.
pub(crate) fn program_of(alloc: Global, text: &str) -> Result<Program, AllocError> {
    let texts = vec![in alloc;
        (
            String::from_str(alloc, "a.isle")?,
            String::from_str(alloc, text)?
        ),
    ]?;
    let files = Rc::new(alloc, Files::from_names_and_contents(alloc, texts)?)?;
    match compile(alloc, files) {
        Ok(program) => Ok(program),
        Err(_refused) => Err(AllocError),
    }
}
