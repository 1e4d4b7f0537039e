//! Source files, and where the lines of their texts start.
ghost use Rattle.std.specs.Prelude.{◌≡◌, ◌<◌, ◌≤◌, ◌+◌, ◌^◌, ◌∷◌, ℕ, IfOk, IfSome, IsTrue, ◌↔◌, [], length, map, slice_get, slice_index};
ghost use Rattle.std.specs.Prelude.{string_bytes};
ghost use Rattle.std.specs.Option.{option_copied, option_map};
ghost use Rattle.isle_ast.specs.Positions.Files.{source_file};
ghost use Rattle.isle_ast.specs.Positions.Lines.{line_starts, starts_up_to, newlines_before, line_number, column_number};

use std::alloc::{AllocError, Global};
use std::marker::Model;
use std::ops::Index;

/// Where the lines of a text start, seen as the offsets after its newline bytes.
#[derive(Debug, Drop)]
pub struct LineMap {
    starts: Vec<usize>,
}

impl Model for LineMap {
    ghost use Rattle.std.specs.Prelude.{List, ℕ};
    ghost use Rattle.std.specs.List.Sorted.{IsStrictlyIncreasing};

    ghost Value = { List ℕ };

    ghost view = { λ m. m.starts.items };

    ghost invariant = { λ m. IsStrictlyIncreasing m.starts.items };
}

impl LineMap {
    /// The map of a text: for each newline byte, the offset after it.
    pub fn from_str(alloc: Global, text: &str) -> Result<LineMap, AllocError>
        ensures starts { IfOk result (λ m. m ≡ line_starts text.now) }
        ensures counts { IfOk result
            (λ m. (p : ℕ) → starts_up_to m p ≡ newlines_before text.now p) }
    {
        let starts = ends_of_lines(alloc, text)?;
        Ok(LineMap { starts })
    }

    /// How many newline bytes occur below an offset: its line, from 0.
    pub fn line(&self, p: usize) -> usize
        ensures value { result ≡ starts_up_to self.now p }
        ensures bound { result ≤ length self.now }
        // So that it can be counted from 1.
        ensures small { result < usize.MAX }
    {
        self.starts.as_slice().partition_point(|start| *start <= p)
    }

    /// The offset after the newline byte of a number, from 0.
    pub fn get(&self, i: usize) -> Option<&usize>
        ensures { option_copied result ≡ slice_get self.now i }
    {
        self.starts.get(i)
    }
}

impl LineMap {
    /// Where the line of an offset starts.
    pub fn start(&self, p: usize) -> usize
        ensures value { result ≡ slice_index (0 ∷ self.now) (starts_up_to self.now p) }
        ensures below { result ≤ p }
    {
        match self.line(p).checked_sub(1) {
            None => 0,
            Some(i) => self.starts[i],
        }
    }
}

// The offset after each newline byte.
fn ends_of_lines(alloc: Global, text: &str) -> Result<Vec<usize>, AllocError>
    ensures { IfOk result (λ starts. starts.items ≡ line_starts text.now) }
{
    text.bytes()
        .enumerate()
        .filter(|(_, b)| *b == b'\n')
        .map(|(i, _)| i + 1)
        .collect(alloc)
}

impl Index<usize> for LineMap {
    type Output = usize;

    ghost can_index = { λ m i. i < length m };

    ghost index_gives = { λ m i start. start ≡ slice_index m i };

    fn index(&self, i: usize) -> &usize {
        &self.starts[i]
    }
}

/// Source files, numbered from 0, seen as the list of their names and texts.
#[derive(Debug, Drop)]
pub struct Files {
    files: Vec<File>,
}

impl Model for Files {
    ghost use Rattle.std.specs.Prelude.{List};
    ghost use Rattle.isle_ast.specs.Positions.Files.{SourceFile};

    ghost Value = { List SourceFile };

    ghost view = { λ f. f.files.items };
}

impl Files {
    /// The files of a list of names and contents, in its order.
    pub fn from_names_and_contents(
        alloc: Global,
        list: Vec<(String, String)>,
    ) -> Result<Files, AllocError>
        ensures { IfOk result (λ files. files ≡ map source_file list.items) }
    {
        let mut files = Vec::with_capacity(alloc, list.len())?;
        for (name, text) in list {
            files.push(File::new(alloc, name, text)?)?;
        }
        Ok(Files { files })
    }

    /// The file of a number.
    pub fn file(&self, i: usize) -> Option<&File>
        ensures { option_copied result ≡ slice_get self.now i }
    {
        self.files.get(i)
    }

    /// The name of the file of a number.
    pub fn file_name(&self, i: usize) -> Option<&str>
        ensures { option_copied result ≡ option_map (λ f. f.name) (slice_get self.now i) }
    {
        Some(self.file(i)?.name())
    }

    /// The text of the file of a number.
    pub fn file_text(&self, i: usize) -> Option<&str>
        ensures text { option_copied result ≡ option_map (λ f. f.text) (slice_get self.now i) }
        ensures small { IfSome result (λ text. length text.now < 2 ^ 63) }
    {
        Some(self.file(i)?.text())
    }

    /// The line map of the text of the file of a number.
    pub fn file_line_map(&self, i: usize) -> Option<&LineMap>
        ensures starts { option_copied result
            ≡ option_map (λ f. line_starts f.text) (slice_get self.now i) }
        // So `line` counts the newline bytes below an offset.
        ensures counts { IfSome (slice_get self.now i) (λ f. IfSome result (λ m. (p : ℕ)
            → starts_up_to m.now p ≡ newlines_before f.text p)) }
    {
        Some(self.file(i)?.line_map())
    }

    /// How many files there are.
    pub fn len(&self) -> usize
        ensures { result ≡ length self.now }
    {
        self.files.len()
    }

    /// Whether there is no file.
    pub fn is_empty(&self) -> bool
        ensures { IsTrue result ↔ (self.now ≡ []) }
    {
        self.files.is_empty()
    }
}

/// A file, seen as its name and its text.
#[derive(Debug, Drop)]
pub struct File {
    name: String,
    text: String,
    line_map: LineMap,
}

impl Model for File {
    ghost use Rattle.std.specs.Prelude.{◌≡◌, string_bytes};
    ghost use Rattle.isle_ast.specs.Positions.Files.{SourceFile};
    ghost use Rattle.isle_ast.specs.Positions.Lines.{line_starts};

    ghost Value = { SourceFile };

    ghost view = { λ f. record { name = string_bytes f.name; text = string_bytes f.text } };

    ghost invariant = { λ f. f.line_map ≡ line_starts (string_bytes f.text) };
}

impl File {
    fn new(alloc: Global, name: String, text: String) -> Result<File, AllocError>
        ensures { IfOk result (λ f. f ≡ source_file (record { 0 = name; 1 = text })) }
    {
        let line_map = LineMap::from_str(alloc, text.as_str())?;
        Ok(File {
            name,
            text,
            line_map,
        })
    }

    /// Its name.
    pub fn name(&self) -> &str
        ensures { result.now ≡ self.now.name }
    {
        self.name.as_str()
    }

    fn text(&self) -> &str
        ensures text { result.now ≡ self.now.text }
        ensures small { length result.now < 2 ^ 63 }
    {
        self.text.as_str()
    }

    fn line_map(&self) -> &LineMap
        ensures { result.now ≡ line_starts self.now.text }
    {
        &self.line_map
    }

    /// The line of an offset, from 1.
    pub fn line(&self, offset: usize) -> usize
        ensures { result ≡ line_number self.now.text offset }
    {
        self.line_map.line(offset) + 1
    }

    /// The column of an offset, in bytes from 1.
    pub fn column(&self, offset: usize) -> usize
        requires { offset < usize.MAX }
        ensures { result ≡ column_number self.now.text offset }
    {
        offset - self.line_map.start(offset) + 1
    }
}
