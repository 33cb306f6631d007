//! What is said of a session is true of all tables that complete those by which it was judged.
ghost use Rattle.std.specs.Prelude.{◌≡◌, ℕ, suc, ◌≤◌, List, slice_get, false};
ghost use Rattle.wl_sigs.specs.Tables.{Interface};
ghost use Rattle.wl_objects.specs.declared.error.Fault.{Fault};
ghost use Rattle.wl_recording.specs.declared.piece.Direction.{Direction as Way};
ghost use Rattle.wl_check.specs.declared.verdict.Verdict.{Verdict as Verdicts};
ghost use Rattle.wl_check.specs.Session.{Session, ArePassed, IsFirstBrokenMessage, IsVerdictOf};
ghost use Rattle.wl_check.specs.Session.{messages};
ghost use Rattle.theory_completion.specs.Completion.{Completes, IsRaised};
ghost use Rattle.theory_completion.specs.Doubt.{is_doubtful, KnowsBinds, NoneIsDoubtful};

/// Up to the first doubtful message, each message is judged as by any tables that complete those
/// that are known, if they have the versions that were bound.
pub fn messages_are_judged_alike()
    ensures { (tables raised other : List Interface) (session : Session) (k : ℕ)
        → IsRaised tables raised → Completes tables other
        → NoneIsDoubtful tables raised session k → KnowsBinds tables raised other session k
        → (j : ℕ) → j ≤ k
        → slice_get (messages raised session) j ≡ slice_get (messages other session) j }
{}

/// If messages up to a place are lawful, and none is doubtful, they are lawful by all such tables.
pub fn lawful_messages_stay_lawful()
    ensures { (tables raised other : List Interface) (session : Session) (k : ℕ)
        → IsRaised tables raised → Completes tables other
        → NoneIsDoubtful tables raised session k → KnowsBinds tables raised other session k
        → ArePassed (messages raised session) (suc k)
        → ArePassed (messages other session) (suc k) }
{}

/// If a message breaks a rule, and none up to it is doubtful, it is the first broken one by all
/// such tables, and breaks the same rule.
pub fn a_broken_message_stays_broken()
    ensures { (tables raised other : List Interface) (session : Session) (direction : Way)
        (index offset : ℕ) (fault : Fault)
        (found : IsFirstBrokenMessage raised session direction index offset fault)
        → IsRaised tables raised → Completes tables other
        → NoneIsDoubtful tables raised session found.place
        → KnowsBinds tables raised other session found.place
        → IsFirstBrokenMessage other session direction index offset fault }
{}

/// If no message of a session is doubtful, its verdict is that by all such tables.
pub fn a_verdict_without_doubt_stays()
    ensures { (tables raised other : List Interface) (session : Session) (verdict : Verdicts)
        → IsRaised tables raised → Completes tables other
        → ((k : ℕ) → is_doubtful tables raised session k ≡ false)
        → ((k : ℕ) → KnowsBinds tables raised other session k)
        → IsVerdictOf raised session verdict → IsVerdictOf other session verdict }
{}

/// If no bind up to the first broken message is newer than the tables, raised tables find the one
/// that the tables find.
pub fn raised_tables_find_the_broken_message()
    ensures { (tables raised : List Interface) (session : Session) (direction : Way)
        (index offset : ℕ) (fault : Fault)
        (found : IsFirstBrokenMessage raised session direction index offset fault)
        → IsRaised tables raised → KnowsBinds tables raised tables session found.place
        → IsFirstBrokenMessage tables session direction index offset fault }
{}

/// If no bind is newer than the tables, the verdict by raised tables is that by the tables.
pub fn raised_tables_judge_alike()
    ensures { (tables raised : List Interface) (session : Session) (verdict : Verdicts)
        → IsRaised tables raised → ((k : ℕ) → KnowsBinds tables raised tables session k)
        → IsVerdictOf raised session verdict → IsVerdictOf tables session verdict }
{}
