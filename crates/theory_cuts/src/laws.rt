//! Laws of pieces of which some were taken.
ghost use Rattle.std.specs.Prelude.{◌≡◌, ℕ, List, ◌∷◌, ◌++◌};
ghost use Rattle.wl_message.specs.declared.amounts.Amounts.{Amounts};
ghost use Rattle.wl_message.specs.InStep.{Part, Need, part_bytes, part_tokens, InStep};
ghost use Rattle.wl_connection.specs.Streams.{IsTaken, taken_bytes, taken_tokens, untaken};
ghost use Rattle.wl_connection.specs.Streams.{part_with_more};

/// What was taken of pieces and what was not are together all of them; and pieces in step stay in
/// step when what was taken of them joins what waits.
pub fn taking_keeps_pieces()
    ensures bytes { (pieces : List Part) (count : ℕ) (some : Amounts)
        → taken_bytes pieces count some ++ part_bytes (untaken pieces count some)
        ≡ part_bytes pieces }
    ensures tokens { (pieces : List Part) (count : ℕ) (some : Amounts)
        → taken_tokens pieces count some ++ part_tokens (untaken pieces count some)
        ≡ part_tokens pieces }
    ensures step { (needs : List Need) (waits : Part) (pieces : List Part) (count : ℕ)
        (some : Amounts)
        → IsTaken pieces count some → InStep needs (waits ∷ pieces)
        → InStep needs (part_with_more waits (taken_bytes pieces count some)
        (taken_tokens pieces count some) ∷ untaken pieces count some) }
{}
