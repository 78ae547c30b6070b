//! Laws of what is open, as contracts of functions that do nothing.
ghost use Rattle.std.specs.Prelude.{◌≡◌, ◌+◌, ◌<◌, ◌≤◌, ℕ, List, Option, Some, length, option_map};
ghost use Rattle.deny_text.specs.declared.span.Span.{Span};
ghost use Rattle.toml_subset.specs.Answer.{then_read};
ghost use Rattle.toml_subset.specs.Data as «data»;
ghost use Rattle.toml_subset.specs.Data.{Items, depth_of, depth_limit};
ghost use Rattle.toml_subset.specs.Lines.{Document};
ghost use Rattle.toml_subset.specs.Reading.{ValueFound, section_of};
ghost use Rattle.toml_subset.specs.TableFaults.{header_fault, array_header_fault};
ghost use Rattle.toml_subset.specs.Tables.{Branches, closed, implicit, edit_along, through_any, edit_within};
ghost use Rattle.toml_subset.specs.Tables.{open_table, open_array, branches_with_value, entries_of};
ghost use Rattle.toml_subset.specs.declared.string.Key.{Key};
ghost use Rattle.toml_subset.specs.frames.Between.{behind_item, behind_entry};
ghost use Rattle.toml_subset.specs.frames.Levels.{Cursor, IsWay, IsOpened, all_plugged, into_header};
ghost use Rattle.toml_subset.specs.frames.Frames.{in_array, in_table, on_with, with_last, array_on, table_on};

use crate::frames::part::HeaderPart;

/// What an array and an inline table owe behind a value is the definition, read on from that place.
pub fn frames_owe_what_reading_owes()
    ensures array { (text : List ℕ) (start above : ℕ) (items : Items) (v : ValueFound) → above + 1 ≤ depth_limit
        → on_with text (in_array start above items) v
        ≡ then_read (array_on text start above (with_last items v)) (behind_item text v.2) }
    ensures table { (text : List ℕ) (start above : ℕ) (branches : Branches) (keys : List Key) (v : ValueFound)
        (new : Branches)
        → branches_with_value keys (closed v.0 v.1) branches ≡ Some new
        → above + depth_of (data.table (entries_of new)) ≤ depth_limit
        → on_with text (in_table start above branches keys) v
        ≡ then_read (table_on text start above new) (behind_entry text v.2) }
{}

/// A key of the open table is looked up, and its value put, in that table alone.
pub fn pairs_need_the_open_table_alone()
    ensures section { (document : Document) (c : Cursor) → IsWay document c
        → section_of document.section document.root 0 ≡ (c.here, c.above) }
    ensures edit { (document : Document) (c : Cursor) (edit : Branches → Option Branches) → IsWay document c
        → edit_within document.section edit document.root ≡ option_map (all_plugged c.around) (edit c.here) }
{}

/// A header that is followed part by part has the definition's first fault, or opens the definition's table.
pub fn headers_are_followed_part_by_part()
    ensures tables { (document : Document) (c : Cursor) (at : Span) (keys : List Key)
        → IsWay document c → 0 < length keys
        → IsOpened (header_fault keys document.root)
        (edit_along implicit through_any (open_table at) keys document.root) keys
        (into_header (HeaderPart.Table at) keys c) }
    ensures arrays { (document : Document) (c : Cursor) (at : Span) (keys : List Key)
        → IsWay document c → 0 < length keys
        → IsOpened (array_header_fault keys document.root)
        (edit_along implicit through_any (open_array at) keys document.root) keys
        (into_header (HeaderPart.Array at) keys c) }
{}
