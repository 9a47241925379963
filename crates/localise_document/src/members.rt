ghost use Rattle.std.specs.Prelude.{◌≡◌, ◌<◌, ◌≤◌, length, [], map, true, false, Option, Some};
ghost use Rattle.std.specs.Prelude.{None, option_map, MatchOption};
ghost use Rattle.std.specs.List.{list_any, slice_index_or};
ghost use Rattle.std.specs.Option.{IfNone, IfSome};
ghost use Rattle.std.specs.Str.{bytes_eq};
ghost use Rattle.serde_json.specs.Find.{get_member};
ghost use Rattle.serde_json.specs.View.{members_view, view};
ghost use Rattle.localise_document.specs.Members.{are_distinct, has_only, texts};

use serde_json::{Map, Value};

/// The place of a key among the names. The search begins at `from`, and goes on at the names'
/// start.
fn place_of(names: &[&str], from: usize, key: &str) -> Option<usize>
    requires { from ≤ length names.now }
    ensures found { IfSome result (λ place.
        (place < length names.now) × (slice_index_or (texts names.now) place [] ≡ key.now)) }
    ensures missing { IfNone result (list_any (bytes_eq key.now) (texts names.now) ≡ false) }
{
    for place in from..names.len() {
        if key == names[place] {
            return Some(place);
        }
    }
    for earlier in 0..from {
        if key == names[earlier] {
            return Some(earlier);
        }
    }
    None
}

/// The members that have these names, in the names' order, or `None` where some member has
/// another. Names in the order of keys are found at once.
pub(crate) fn members_by_name<const N: usize>(
    members: Map<String, Value>,
    names: &[&str],
) -> Option<[Option<Value>; N]>
    requires count { length names.now ≡ N }
    requires distinct { are_distinct (texts names.now) ≡ true }
    ensures { MatchOption result
        (has_only (texts names.now) (members_view members.entries) ≡ false) (λ slots.
        (has_only (texts names.now) (members_view members.entries) ≡ true)
        × (map (option_map view) slots
        ≡ map (λ name. get_member name (members_view members.entries)) (texts names.now))) }
{
    let mut slots: [Option<Value>; N] = Default::default();
    let mut next = 0;
    for (key, value) in members {
        let place = place_of(names, next, key.as_str())?;
        slots[place] = Some(value);
        next = place + 1;
    }
    Some(slots)
}
