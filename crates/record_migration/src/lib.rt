//! Records in either format, written anew in format 2.
#![tactic(auto)]

pub mod laws;
mod migrate;

pub use migrate::{MigrationStop, migrate_records};
