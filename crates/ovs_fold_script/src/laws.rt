//! A law of what the script prints, as the contract of a function with nothing to do.

ghost use Rattle.std.specs.Prelude.{◌≡◌, ◌≤◌, ◌↔◌, List};
ghost use Rattle.std.specs.FinMap as map;
ghost use Rattle.ovs_types.specs.Schema.{SchemaValue};
ghost use Rattle.ovs_links.specs.Sets.{Among, IsConsistent};
ghost use Rattle.ovs_links.specs.Store.{max_links};
ghost use Rattle.ovs_links.specs.Kept.{from_links};
ghost use Rattle.ovs_links.specs.Outcomes.{taken_all};
ghost use Rattle.ovs_links.specs.declared.link.Link.{Link};
ghost use Rattle.ovs_fold_script.specs.Closing.{end_text, is_whole_chain};
ghost use Rattle.ovs_fold_script.specs.Stores.{no_links};

/// Links that don't contradict each other, at most 1,000,000 different ones, lead to the same last lines in whatever
/// order they come and however often, and to the same answer whether the chain is stuck.
pub fn last_lines_depend_on_the_set_alone()
    ensures lines { (schema : SchemaValue) (ls ms : List Link) → IsConsistent (Among ls)
        → map.len (from_links ls) ≤ max_links → ((l : Link) → Among ls l ↔ Among ms l)
        → end_text (taken_all (no_links schema) ls) ≡ end_text (taken_all (no_links schema) ms) }
    ensures whole { (schema : SchemaValue) (ls ms : List Link) → IsConsistent (Among ls)
        → map.len (from_links ls) ≤ max_links → ((l : Link) → Among ls l ↔ Among ms l)
        → is_whole_chain (taken_all (no_links schema) ls) ≡ is_whole_chain (taken_all (no_links schema) ms) }
{}
