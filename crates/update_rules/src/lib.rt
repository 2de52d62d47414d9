//! What an update does to a snapshot, which updates a snapshot refuses, what an update or a group of
//! updates changes, and the changes of each shard.
#![tactic(auto)]

mod change_list;
mod changes;
mod net;
mod shards;
mod steps;
mod writes;

pub use change_list::ChangeList;
pub use changes::{Change, Entries, Place, changes_since, entry};
pub use net::{net_of, net_of_changes};
pub use shards::{Part, PartList, parts, parts_of_changes};
pub use steps::{StepFault, admit, apply, step};
pub use writes::{changes_by, written_by};
