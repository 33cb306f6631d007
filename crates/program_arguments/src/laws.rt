//! Laws of the command line. Each is the contract of a function that does nothing: it says which
//! words ask for help or the version.
ghost use Rattle.std.specs.Prelude.{List, ◌∷◌, codes};
ghost use Rattle.clap.specs.Words.{Text};
ghost use Rattle.program_arguments.specs.Asking.{AsksHelp, HasFault};

/// These words after the program's name ask for help, whatever follows them, and are no fault.
pub fn help_has_its_words()
    ensures long { (name : Text) (rest : List Text) → AsksHelp (name ∷ codes "--help" ∷ rest)
        × (HasFault (name ∷ codes "--help" ∷ rest) → ⊥) }
    ensures short { (name : Text) (rest : List Text) → AsksHelp (name ∷ codes "-h" ∷ rest)
        × (HasFault (name ∷ codes "-h" ∷ rest) → ⊥) }
{}

/// These words ask for the version.
pub fn the_version_has_its_words()
    ensures long { (name : Text) (rest : List Text) → AsksHelp (name ∷ codes "--version" ∷ rest)
        × (HasFault (name ∷ codes "--version" ∷ rest) → ⊥) }
    ensures short { (name : Text) (rest : List Text) → AsksHelp (name ∷ codes "-V" ∷ rest)
        × (HasFault (name ∷ codes "-V" ∷ rest) → ⊥) }
{}
