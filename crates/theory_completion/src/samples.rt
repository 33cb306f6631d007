//! An interface that is newer than its tables, worked out by hand. Each sample is the contract of a
//! function that does nothing.
ghost use Rattle.std.specs.Prelude.{◌≡◌, Some, true, false};
ghost use Rattle.wl_sigs.specs.Side.TheVariants.{Event, Request};
ghost use Rattle.wl_object_map.specs.Ranges.{first_server_id};
ghost use Rattle.theory_completion.specs.Completion.{Completes};
ghost use Rattle.theory_completion.specs.Doubt.{is_newer_message, makes_unsettled};
ghost use Rattle.theory_completion.specs.Samples.{new_tables, old_tables, window_made, window_of};

/// A newer version with one more request completes the tables. For a window of that version, a
/// message that the tables lack is doubtful; one that they have, and one for an older window, is
/// not.
pub fn a_window_is_newer()
    ensures completes { Completes old_tables new_tables }
    ensures lacked { is_newer_message old_tables Request 0 (Some (window_of 2)) ≡ true }
    ensures older { is_newer_message old_tables Request 0 (Some (window_of 1)) ≡ false }
    ensures known { is_newer_message old_tables Event 0 (Some (window_of 2)) ≡ false }
    ensures known_by_all { is_newer_message new_tables Request 0 (Some (window_of 2)) ≡ false }
{}

/// The tables do not say whether a request ends a window of the newer version. So one that the
/// server makes is doubtful; the client's, and those of a version that the tables have, are not.
pub fn a_window_is_unsettled()
    ensures server { makes_unsettled old_tables (Some (window_made first_server_id 2)) ≡ true }
    ensures client { makes_unsettled old_tables (Some (window_made 3 2)) ≡ false }
    ensures older { makes_unsettled old_tables (Some (window_made first_server_id 1)) ≡ false }
    ensures known { makes_unsettled new_tables (Some (window_made first_server_id 2)) ≡ false }
{}
