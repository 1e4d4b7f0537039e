//! Laws of what is printed, formatted and laid out, each as a function whose contract states it.
ghost use Rattle.std.specs.Prelude.{◌≡◌, All, ℕ, List, ◌++◌, ◌∷◌, map, take, true, nat_le, ◌||◌};
ghost use Rattle.std.specs.List.{list_any};
ghost use Rattle.std.specs.Fmt.{char_count};
ghost use Rattle.std.specs.Str.{IsUtf8};
ghost use Rattle.isle_ast.specs.declared.ast.Def.{Def};
ghost use Rattle.isle_syntax.specs.Grammar.Verdict.{Spells};
ghost use Rattle.isle_ast.specs.Trees.WithoutPos.{def_without_pos};
ghost use Rattle.isle_layout.specs.Writable.{writable_def};
ghost use Rattle.isle_layout.specs.Formats.{Formats, IsSettled, IsFaultless};
ghost use Rattle.isle_layout.specs.declared.pieces.Kind.{Kind};
ghost use Rattle.isle_layout.specs.declared.pieces.Break.{Break};
ghost use Rattle.isle_layout.specs.declared.layout.Spot.{Spot};
ghost use Rattle.isle_layout.specs.Layout.{within};
ghost use Rattle.isle_layout.specs.Keeping.Pieces.{Fragment, pieces_of};
ghost use Rattle.isle_layout.specs.Keeping.Rows.{are_few, list_length, stays, rows_of};
ghost use Rattle.isle_layout.specs.Keeping.OneLine.{opening, closing, HasItsText, AreItems, list_text};
ghost use Rattle.isle_layout.specs.Keeping.LaidOut.{is_flat, text_before, written};
ghost use Rattle.isle_layout.specs.Changes.Scripts.{Edit};
ghost use Rattle.isle_layout.specs.Changes.Hunks.{is_change, is_shown, place_after};

/// The definitions that a text spells, as `parse` gives them, can be written.
pub fn spelt_is_writable()
    ensures { (file : ℕ) (text : List ℕ) (defs : List Def) → Spells file text defs
        → All (λ def. writable_def def ≡ true) defs }
{}

/// They can be written without their positions too, as `parse_without_pos` gives them.
pub fn spelt_without_pos_is_writable()
    ensures { (file : ℕ) (text : List ℕ) (defs : List Def) → Spells file text defs
        → All (λ def. writable_def def ≡ true) (map def_without_pos defs) }
{}

/// A text is formatted at a width in one way.
pub fn formatted_is_one()
    ensures { (file width : ℕ) (text one other : List ℕ) → Formats file width text one → Formats file width text other
        → one ≡ other }
{}

/// Formatted again at the same width, whatever is formatted stays, and is accepted.
pub fn formatted_is_settled()
    ensures settled { (file width : ℕ) (text once : List ℕ) → IsUtf8 once → Formats file width text once
        → IsSettled width once }
    ensures accepted { (file width : ℕ) (text once : List ℕ) → IsUtf8 once → Formats file width text once
        → IsFaultless once }
{}

/// A list that nothing in it breaks is as long for the layout as it is on one line, with its parentheses and the spaces
/// between its items. It stays there exactly where it has at most the width's characters, or fewer than two items. What is
/// written of it then, and of each list in it, is the list on one line. The parentheses of each text are as they are here.
pub fn row_is_line()
    ensures length { (width : ℕ) (inner others : List Fragment) (before : Break) → AreItems inner
        → list_length width (rows_of width (inner ++ closing before ∷ others)).here ≡ within width (char_count (list_text inner)) }
    ensures stays { (width : ℕ) (inner others : List Fragment) (before : Break) → AreItems inner
        → let row = (rows_of width (inner ++ closing before ∷ others)).here in
        stays width row ≡ (nat_le (char_count (list_text inner)) width || are_few row.count) }
    ensures written { (width : ℕ) (spot : Spot) (before behind : Break) (inner others : List Fragment) → AreItems inner
        → is_flat spot || stays width (rows_of width (inner ++ closing behind ∷ others)).here ≡ true
        → written width spot (opening before ∷ (inner ++ closing behind ∷ others))
        ≡ (text_before spot Kind.Opening before ++ list_text inner) ++ written width (record spot { prev = Some Kind.Closing }) others }
    ensures parentheses { (text : List ℕ) → All (λ piece. HasItsText piece.kind piece.text) (pieces_of text) }
{}

/// A line of a unified diff is shown exactly where one of the three lines before it, it or one of the three behind it is removed or added.
pub fn shown_lines_are_near_changes()
    ensures { (before after : List Edit) → is_shown (place_after before) after
        ≡ (list_any is_change (take 3 before) || list_any is_change (take 4 after)) }
{}
