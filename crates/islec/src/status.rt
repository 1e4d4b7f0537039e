//! The exit statuses of the program, and how it tells that memory ran out.
ghost use Rattle.std.specs.Prelude.{◌≡◌, codes};
ghost use Rattle.islec.specs.Statuses.{code_of};
ghost use Rattle.islec.specs.Writing.{AppendsBeginning};

use crate::serve::write_text;
use std::io::Write;

/// How the program ends.
#[derive(Clone, Copy)]
pub enum Status {
    /// All was well, or help was asked for.
    AllWell,
    /// A text or a world was refused.
    TextsRefused,
    /// The words of the command line were refused, or no term has a name that was asked for.
    Usage,
    /// A query was refused, stuck, spent or ill-typed.
    SomeRefused,
    /// Reading or writing failed.
    InputOutput,
    /// Memory ran out.
    OutOfMemory,
}

impl Status {
    /// The exit status, from 0 to 5.
    pub fn code(self) -> u8
        ensures { result ≡ code_of self }
    {
        match self {
            Status::AllWell => 0,
            Status::TextsRefused => 1,
            Status::Usage => 2,
            Status::SomeRefused => 3,
            Status::InputOutput => 4,
            Status::OutOfMemory => 5,
        }
    }
}

/// Tells that memory ran out, which takes no memory, and gives that status.
pub fn out_of_memory<W: Write>(writer: &mut W) -> Status
    ensures status { result ≡ Status.OutOfMemory }
    ensures written { AppendsBeginning (W.contents writer.old) (W.contents writer.new) (codes "out of memory\n") }
{
    let _ = write_text(writer, "out of memory\n");
    Status::OutOfMemory
}
