//! Where the files of a command are read, and put in their place anew.
ghost use Rattle.std.specs.Prelude.{◌≡◌, [], ◌∷◌, List, Option, Result, Ok, IfOk, IfErr, OnOk, OnErr, ℕ};
ghost use Rattle.std.specs.declared.io.ErrorKind.{ErrorKind as FaultKind};
ghost use Rattle.isle_ast.specs.Positions.Files.{SourceFile};
ghost use Rattle.islec.specs.Inputs.{MayFail};
ghost use Rattle.islec.specs.Outputs.{Puts};

use std::alloc::Global;
use std::io::ErrorKind;

/// Why a file is not read, or not put in its place.
#[derive(Clone, Copy)]
pub enum FileFault {
    /// Opening, reading or writing it fails with an error of this kind.
    Fails(ErrorKind),
    Memory,
}

/// What reads the files of names.
pub trait Sources {
    /// what reading the file of a name may give: its bytes, or an error of a kind
    ghost gives: { Self → List ℕ → Result (List ℕ) FaultKind → Type 0 };

    /// The bytes of the file of a name.
    fn read(&self, alloc: Global, name: &str) -> Result<Vec<u8>, FileFault>
        ensures bytes { IfOk result (λ bytes. gives self.now name.now (Ok bytes.items)) }
        ensures fails { IfErr result (MayFail (gives self.now name.now)) };
}

/// What puts texts in the place of files.
pub trait Targets {
    /// the names and the texts of the files that were put in place, one after another, where that is known
    ghost replaced: { Self → Option (List SourceFile) };

    /// Puts a text in the place of the file of a name. Where that fails the file is as it was.
    fn replace(&mut self, alloc: Global, name: &str, text: &str) -> Result<(), FileFault>
        ensures put { OnOk result (Puts (replaced self.old) (replaced self.new) (record { name = name.now; text = text.now } ∷ [])) }
        ensures stays { OnErr result (replaced self.new ≡ replaced self.old) };
}
