//! Laws of valid tables. They do nothing: their contracts state facts about the definitions.
ghost use Rattle.std.specs.Prelude.{◌≡◌, ◌↔◌, ℕ, ◌≤◌, List, Ok, Err, Some, None, true, false};
ghost use Rattle.std.specs.List.{All};
ghost use Rattle.wl_sigs.specs.Side.{Side};
ghost use Rattle.wl_sigs.specs.Broken.{Broken, first_broken};
ghost use Rattle.wl_sigs.specs.Core.{core_tables};
ghost use Rattle.wl_sigs.specs.Extended.{extended};
ghost use Rattle.wl_sigs.specs.Extending.{first_line_broken};
ghost use Rattle.wl_sigs.specs.FirstLineBroken.{ExtendsRightly, IsFirstBrokenLine};
ghost use Rattle.wl_sigs.specs.Joined.{joined};
ghost use Rattle.wl_sigs.specs.Opcodes.{opcodes, opcodes_in};
ghost use Rattle.wl_sigs.specs.Outcome.{outcome};
ghost use Rattle.wl_sigs.specs.Rules.{keep_rules};
ghost use Rattle.wl_sigs.specs.Tables.{Interface, MessageSignature, interface_at, message_of};
ghost use Rattle.wl_sigs.specs.Tables.{place_of};
ghost use Rattle.wl_sigs.specs.Valid.{Valid, HasFixedFour};
ghost use Rattle.wl_text.specs.TableText.{IsFirstBadLine, TableText};
ghost use Rattle.wl_text.specs.Text.{WrittenInterface};
ghost use Rattle.wl_text.specs.declared.fault.TableFault.TheVariants.{BadLine, BadTable};

/// Tables are valid if and only if wl_display, wl_registry and wl_callback come first, wl_fixes
/// follows the other core interfaces, and the tests of the other rules pass.
pub fn valid_where_tests_pass()
    ensures { (tables : List Interface)
        → Valid tables ↔ (HasFixedFour tables × (keep_rules tables ≡ true)) }
{}

/// In valid tables every interface is found by its name.
pub fn found_by_its_name()
    ensures { (tables : List Interface) (place : ℕ) (i : Interface) → Valid tables
        → interface_at tables place ≡ Some i
        → place_of tables i.name ≡ Some (record { 0 = place }) }
{}

/// Each constant of `request` and `event` is the opcode of the message with its name in the core
/// tables, and each message of the core tables has its constant.
pub fn opcodes_are_of_their_names()
    ensures { (side : Side) → opcodes side ≡ opcodes_in core_tables side }
{}

/// No line of a text appended to valid tables breaks a rule if and only if no extension does on its
/// own and the resulting tables are valid.
pub fn unbroken_where_valid()
    ensures { (tables : List Interface) (written : List WrittenInterface) → Valid tables
        → (first_line_broken tables written ≡ None)
        ↔ (ExtendsRightly tables written × Valid (extended tables written)) }
{}

/// The meaning of a text that extends no interface: its own interfaces are appended to the tables,
/// and its first broken line is the first of these that breaks a rule.
pub fn without_extensions()
    ensures { (tables : List Interface) (written : List WrittenInterface)
        → All (λ i. i.extends ≡ false) written
        → (extended tables written ≡ joined tables written)
        × (first_line_broken tables written ≡ first_broken tables written) }
{}

/// A text leaves each interface of the tables at its index, and its messages at their opcodes. The
/// version is not lowered.
pub fn places_and_opcodes_stay()
    ensures { (tables : List Interface) (written : List WrittenInterface) (place : ℕ)
        (i : Interface) → interface_at tables place ≡ Some i
        → (j : Interface) × (interface_at (extended tables written) place ≡ Some j)
        × (j.name ≡ i.name) × (i.version ≤ j.version)
        × ((side : Side) (opcode : ℕ) (m : MessageSignature) → message_of side opcode i ≡ Some m
        → message_of side opcode j ≡ Some m) }
{}

/// For what a text lists, the broken line that is found is the first that breaks a rule of valid
/// tables when the text is appended to these, and the rule is the lowest that the line breaks.
pub fn first_broken_is_first()
    ensures { (tables : List Interface) (written : List WrittenInterface) (broken : Broken)
        → (first_line_broken tables written ≡ Some broken)
        ↔ IsFirstBrokenLine tables written broken }
{}

/// The three results of a text that is appended to valid tables. It is read, as the tables extended
/// by what it lists, if and only if it lists interfaces and extensions, none of these breaks a rule
/// on its own, and the extended tables are valid. It has a bad line if and only if some line may
/// not be there: the first such line. It has a line that breaks a rule if and only if it lists
/// interfaces and extensions, and some of them break one: the first such line, and the lowest rule
/// that it breaks.
pub fn texts_are_told()
    ensures told { (tables all : List Interface) (text : List ℕ) → Valid tables
        → (outcome tables text ≡ Ok all) ↔ ((written : List WrittenInterface)
        × TableText text written × ExtendsRightly tables written
        × (extended tables written ≡ all) × Valid all) }
    ensures bad { (tables : List Interface) (text : List ℕ) (n : ℕ)
        → (outcome tables text ≡ Err (BadLine n)) ↔ IsFirstBadLine text n }
    ensures broken { (tables : List Interface) (text : List ℕ) (line rule : ℕ)
        → (outcome tables text ≡ Err (BadTable line rule)) ↔ ((written : List WrittenInterface)
        × TableText text written
        × IsFirstBrokenLine tables written (record { line = line; rule = rule })) }
{}
