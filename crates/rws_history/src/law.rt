//! Laws on the places of a history. The functions compute nothing: their contracts are the theorems.
ghost use Rattle.std.specs.Prelude.{◌≡◌, ◌==◌, ℕ, List, Option, Some, None, if◌then◌else◌};
ghost use Rattle.std.specs.Option.{option_map};
ghost use Rattle.rws_history.specs.declared.cursor_list.LinkCursor.{LinkCursor};
ghost use Rattle.rws_history.specs.Cursors.{cursor_of, placed, without, lowered, all_lowered};
ghost use Rattle.rws_history.specs.Histories.{HistoryView};
ghost use Rattle.rws_history.specs.Serials.{AreSerials, PlacesFollow, IsByPlace, StepsAgree, updated};

/// The cursors are a map from links to places: what each change of them makes of a look-up.
pub fn cursors_are_a_map()
    ensures placed { (cursors : List LinkCursor) (link at other : ℕ) → cursor_of (placed cursors link at) other ≡ updated (cursor_of cursors) link (Some at) other }
    ensures without { (cursors : List LinkCursor) (link other : ℕ) → cursor_of (without cursors link) other ≡ updated (cursor_of cursors) link None other }
    ensures lowered { (removed : ℕ) (cursors : List LinkCursor) (other : ℕ) → cursor_of (all_lowered removed cursors) other ≡ option_map (lowered removed) (cursor_of cursors other) }
{}

/// A place is the number of entries with a smaller serial number, through each change of the list.
pub fn places_follow_serials()
    ensures { (serials : List ℕ) (next : ℕ) → AreSerials 0 serials next → PlacesFollow serials next }
{}

/// A history whose cursors and mark are places, and one whose cursors and mark are serial numbers, take the same steps.
pub fn steps_by_serials()
    ensures { (history : HistoryView) (serials : List ℕ) (next : ℕ) (cursors : ℕ → Option ℕ) (mark : ℕ)
        → AreSerials 0 serials next → IsByPlace history serials cursors mark → StepsAgree history serials next cursors mark }
{}
