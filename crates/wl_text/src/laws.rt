//! Laws of tables as a text. Each is the contract of a function that does nothing.
ghost use Rattle.std.specs.Prelude.{◌≡◌, ◌↔◌, ℕ, List, [], Ok, Err};
ghost use Rattle.std.specs.Str.Lines.{lines};
ghost use Rattle.wl_text.specs.TableText.{TableText, IsFirstBadLine};
ghost use Rattle.wl_text.specs.Text.{WrittenInterface, interfaces_from};

/// A text lists exactly the interfaces that are read from it.
pub fn what_a_text_lists_is_read()
    ensures { (text : List ℕ) (written : List WrittenInterface)
        → (interfaces_from 1 (lines text) [] ≡ Ok written) ↔ TableText text written }
{}

/// Reading a text stops at the first bad line.
pub fn first_bad_line()
    ensures { (text : List ℕ) (n : ℕ)
        → (interfaces_from 1 (lines text) [] ≡ Err n) ↔ IsFirstBadLine text n }
{}

/// A text lists its interfaces in only one way.
pub fn one_text_one_list()
    ensures { (text : List ℕ) (written others : List WrittenInterface)
        → TableText text written → TableText text others → written ≡ others }
{}
