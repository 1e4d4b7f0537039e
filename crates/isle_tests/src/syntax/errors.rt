//! What is printed of errors that are gathered.
ghost use Rattle.std.specs.Prelude.{◌≡◌, ◌<◌, All, IfOk, length};
ghost use Rattle.isle_ast.specs.Errors.{ErrorAt};

use isle_syntax::Text;
use isle_syntax::error::{Error, ErrorsBuilder, Span};
use isle_syntax::files::Files;
use isle_syntax::lexer::Pos;
use std::alloc::{AllocError, Global};
use std::rc::Rc;
use std::test::Fail;

/// The name and the text of a file.
pub fn file(alloc: Global, name: &str, text: &str) -> Result<(String, String), AllocError> {
    Ok((
        String::from_str(alloc, name)?,
        String::from_str(alloc, text)?,
    ))
}

/// Two files.
fn two_files(alloc: Global) -> Result<Rc<Files>, Fail>
    ensures { IfOk result (λ files. length files.value ≡ 2) }
{
    let a = file(alloc, "a.isle", "first\n")?;
    let b = file(alloc, "b.isle", "héy\n(decl")?;
    let files = Files::from_names_and_contents(alloc, vec![in alloc; a, b]?)?;
    Ok(Rc::new(alloc, files)?)
}

// A type error behind the end of the second file, whose message has two lines.
fn typing(alloc: Global) -> Result<Error, AllocError>
    ensures { IfOk result (ErrorAt (λ pos. (pos.file < 2) × (pos.offset < 1000))) }
{
    Ok(Error::TypeError {
        msg: Text::from_str(alloc, "unknown type\nmet in a rule")?,
        span: Span::new_single(Pos::new(1, 100)),
    })
}

// An error of the first file, in a list.
fn others(alloc: Global) -> Result<Vec<Error>, AllocError>
    ensures { IfOk result (λ errors. All (ErrorAt (λ pos. (pos.file < 2) × (pos.offset < 1000))) errors.items) }
{
    let mut errors = Vec::new(alloc);
    errors.push(Error::SizeError {
        msg: Text::from_str(alloc, "s")?,
        span: Span::new_single(Pos::new(0, 0)),
    })?;
    Ok(errors)
}

/// The text of these errors, the type error first.
pub fn report(alloc: Global) -> Result<String, Fail> {
    let builder = ErrorsBuilder::new(alloc)?.error(typing(alloc)?)?;
    let builder = builder.errors(others(alloc)?)?;
    Ok(builder.files(two_files(alloc)?).build().to_string(alloc)?)
}

pub const REPORT: &str = "b.isle:2:96: type error
  unknown type
  met in a rule
a.isle:1:1: too large
  s
";
