//! The law of table texts that are read as one. It is the contract of a function that does nothing.
ghost use Rattle.std.specs.Prelude.{◌≡◌, ◌↔◌, ◌<◌, ℕ, List, length};
ghost use Rattle.program_jobs.specs.FileLines.{HasLine, IsLineOfFile};
ghost use Rattle.program_jobs.specs.Texts.{NamedText, as_one, own_line};

/// The joined text has the lines of all files, in their order, and `own_line` says which line of
/// which file each of them is.
///
/// The joined text has the line at `number`, and `own_line` returns `name` and `own` for this
/// number, if and only if a file called `name` has the line at `own`, and `number` is `own` plus
/// the number of all lines of the files before it.
pub fn lines_are_found_in_their_files()
    ensures { (texts : List NamedText) (number own : ℕ) (line name : List ℕ) → 0 < length texts
        → (HasLine (as_one texts) number line × (own_line texts number ≡ (name, own)))
        ↔ IsLineOfFile texts number line name own }
{}
