//! The pairs of a map in JSON.

ghost use Rattle.std.specs.Prelude.{◌≡◌, option_map, codes, is_some};
ghost use Rattle.serde_json.specs.View.{view, items_view};
ghost use Rattle.ovs_json.specs.Parts.{two_items, list_under};
ghost use Rattle.ovs_data.specs.Reading.{are_pairs, map_items};

use ovs_json::{list_under, two_items};
use serde_json::Value;

fn is_pair(value: &Value) -> bool
    ensures value { result ≡ is_some (two_items (view value.now)) }
{
    two_items(value).is_some()
}

// Whether each item is a list of two.
fn are_pairs(items: &[Value]) -> bool
    ensures value { result ≡ are_pairs (items_view items.now) }
{
    items.iter().all(is_pair)
}

/// The list of pairs of `["map", [[key, value]..]]`.
pub(crate) fn map_items(value: &Value) -> Option<&Vec<Value>>
    ensures value { option_map (λ v. items_view v.now.items) result ≡ map_items (list_under (codes "map") (view value.now)) }
{
    let items = list_under("map", value)?;
    if are_pairs(items) { Some(items) } else { None }
}
