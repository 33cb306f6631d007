//! Laws of the wire format. Each is the contract of a function that does nothing.
ghost use Rattle.std.specs.Prelude.{◌≡◌, ◌↔◌, ◌<◌, ◌≤◌, ◌^◌, ◌++◌, ℕ, ℤ, List, All, length, take};
ghost use Rattle.std.specs.Prelude.{FitsSigned, Ok, Err};
ghost use Rattle.std.specs.Int.{w32};
ghost use Rattle.wl_wire.specs.declared.header.Header.{Header as SpecHeader};
ghost use Rattle.wl_wire.specs.declared.kind.ArgFault.{ArgFault as SpecFault};
ghost use Rattle.wl_wire.specs.declared.kind.Kind.{Kind as SpecKind};
ghost use Rattle.wl_wire.specs.Argument.{Argument};
ghost use Rattle.wl_wire.specs.Faults.{IsFirstFault};
ghost use Rattle.wl_wire.specs.Reading.{reading};
ghost use Rattle.wl_wire.specs.Spelling.{Spells, Suits, canonical, spelled_len};
ghost use Rattle.wl_wire.specs.Word.{IsHeader, header_at, header_bytes, int_word, word};

/// No spelling of a kind is a prefix of another: the bytes determine the value and the length of
/// its spelling.
pub fn one_spelling()
    ensures { (kind : SpecKind) (v w : Argument) (a b x y : List ℕ) → Spells kind v a
        → Spells kind w b
        → a ++ x ≡ b ++ y → (v ≡ w) × (a ≡ b) }
{}

/// A canonical spelling is a spelling.
pub fn canonical_spells()
    ensures { (kind : SpecKind) (v : Argument) → Suits kind v → Spells kind v (canonical v) }
{}

/// Bytes that spell a value for a kind show that the value suits the kind, and all its spellings
/// are equally long.
pub fn spelled_suits()
    ensures { (kind : SpecKind) (v : Argument) (bytes : List ℕ) → Spells kind v bytes
        → Suits kind v × (length bytes ≡ spelled_len v) }
{}

/// A spelled value is read, whatever follows it.
pub fn spelled_is_read()
    ensures { (kind : SpecKind) (v : Argument) (front rest : List ℕ) → Spells kind v front
        → reading kind (front ++ rest) ≡ Ok (v, length front) }
{}

/// What is read is spelled at the front of the bytes.
pub fn read_is_spelled()
    ensures { (kind : SpecKind) (v : Argument) (n : ℕ) (bytes : List ℕ) → All (λ b. b < 256) bytes
        → reading kind bytes ≡ Ok (v, n) → (n ≤ length bytes) × Spells kind v (take n bytes) }
{}

/// The fault reported is the first that applies.
pub fn first_fault()
    ensures { (kind : SpecKind) (fault : SpecFault) (bytes : List ℕ) → All (λ b. b < 256) bytes
        → (reading kind bytes ≡ Err fault) ↔ IsFirstFault kind bytes fault }
{}

/// A value written for a kind is read back, whatever follows it.
pub fn written_is_read()
    ensures { (kind : SpecKind) (v : Argument) (rest : List ℕ) → Suits kind v
        → reading kind (canonical v ++ rest) ≡ Ok (v, spelled_len v) }
{}

/// No two numbers have the same word.
pub fn one_number()
    ensures { (m n : ℕ) → m < 2 ^ 32 → n < 2 ^ 32 → word m ≡ word n → m ≡ n }
{}

/// No two signed numbers have the same word.
pub fn one_signed()
    ensures { (m n : ℤ) → FitsSigned w32 m → FitsSigned w32 n → int_word m ≡ int_word n → m ≡ n }
{}

/// `from_bytes` reads the header that `to_bytes` wrote, whatever follows it.
pub fn header_is_read()
    ensures { (h : SpecHeader) (rest : List ℕ) → IsHeader h
        → header_at (header_bytes h ++ rest) ≡ h }
{}

/// `to_bytes` writes the bytes that `from_bytes` read.
pub fn header_is_written()
    ensures { (bytes : List ℕ) → All (λ b. b < 256) bytes → length bytes ≡ 8
        → header_bytes (header_at bytes) ≡ bytes }
{}
