//! Links between the commits of an OVSDB database, and stores that fold the longest chain of them.
#![tactic(auto)]

mod answer;
mod beside;
mod epochs;
mod folded;
mod held;
mod id_map;
mod joins;
mod laws;
mod link;
mod merging;
mod outcomes;
mod pruning;
mod run;
mod settling;
mod starting;
mod step;
mod store;
mod taking;

pub use answer::{By, FoldError, MergeError, Settled, TakeError, Took};
pub use epochs::{epoch_laws, opening_laws, pruning_laws};
pub use folded::Folded;
pub use joins::{join_associates, join_is_union, join_laws};
pub use laws::{history_laws, link_set_laws, step_laws};
pub use link::{BadId, Link};
pub use outcomes::{answer_laws, taking_depends_on_the_set_alone};
pub use run::{fold_all, take_all};
pub use step::Step;
pub use store::{LinkStore, MAX_LINKS};
