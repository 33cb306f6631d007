//! What the two ends record is lawful, whatever is done with them.
ghost use Rattle.std.specs.Prelude.{◌≡◌, List};
ghost use Rattle.wl_sigs.specs.Tables.{Interface};
ghost use Rattle.wl_sigs.specs.Valid.{Valid};
ghost use Rattle.wl_message.specs.declared.amounts.Sizes.{Sizes};
ghost use Rattle.wl_check.specs.declared.verdict.Verdict.{Verdict};
ghost use Rattle.wl_check.specs.Session.{IsVerdictOf, IsLawful, SaysLawful, session_of};
ghost use Rattle.theory_connection.specs.World.{World, opening_world, Each};
ghost use Rattle.theory_connection.specs.Pair.{PairState, Move, Reply, Does, new_pair};
ghost use Rattle.theory_connection.specs.Stands.{Stands};
ghost use Rattle.theory_connection.specs.Runs.{DoesAll, IsMove};
ghost use Rattle.theory_recording.specs.Linked.{Linked, LinksOn, RunsLinked, pair_limit};

/// A new pair with one limit is linked with the opening world.
pub fn new_linked()
    ensures { (tables : List Interface) (client server : Sizes)
        → client.limit.bytes ≡ server.limit.bytes → Valid tables
        → Linked (new_pair tables client server) opening_world }
{}

/// Whatever one move does with a linked pair, its reply is one that the world allows, and the pair
/// is linked again.
pub fn step_links()
    ensures { (pair : PairState) (world : World) → Linked pair world
        → (move : Move) (reply : Reply) (next : PairState)
        → IsMove move → Does pair move reply next → LinksOn pair world move reply next }
{}

/// Whatever any list of moves does with a linked pair is a run: each pair is linked with its world,
/// and each reply is one that the world allows.
pub fn run_links()
    ensures { (pair : PairState) (world : World) (moves : List Move) (replies : List Reply)
        (last : PairState)
        → Linked pair world → Each IsMove moves → DoesAll pair moves replies last
        → RunsLinked pair world moves replies last }
{}

/// A linked pair represents its world.
pub fn linked_stands()
    ensures { (pair : PairState) (world : World) → Linked pair world → Stands pair world }
{}

/// What a linked pair recorded is lawful.
pub fn linked_lawful()
    ensures { (pair : PairState) (world : World) → Linked pair world
        → IsLawful pair.server.core.tables
        (session_of (pair_limit pair) pair.recording) }
{}

/// Whatever verdict a checker may give on what a linked pair recorded, it is that the session is
/// lawful.
pub fn check_says_lawful()
    ensures { (pair : PairState) (world : World) (verdict : Verdict) → Linked pair world
        → IsVerdictOf pair.server.core.tables
        (session_of (pair_limit pair) pair.recording) verdict
        → SaysLawful verdict }
{}
