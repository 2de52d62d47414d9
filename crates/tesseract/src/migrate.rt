ghost use Rattle.std.specs.Prelude.{◌≡◌, ◌≢◌, ◌≤◌, ◌^◌};
ghost use Rattle.job_io.specs.calls.Ends.{HasRisen};
ghost use Rattle.tesseract.specs.calls.Migrate.{MigratesAs};

use crate::status::Status;
use job_io::{Sink, Source};
use record_migration::{MigrationStop, migrate_records};
use std::alloc::Global;

/// Writes a text of records of at most `most` lines, in either format, anew in format 2: each timestamp that is done
/// before the first line that is refused.
pub fn migrate<S: Source, O: Sink>(alloc: Global, most: u64, input: &mut S, out: &mut O) -> Status
    requires { most ≤ 10 ^ 19 }
    ensures migrated { MigratesAs most (S.left input.old) (S.left input.new)
        (O.written out.old) (O.written out.new) result }
    ensures not_usage { result ≢ Status.Usage }
    ensures read_cause { result ≡ Status.ReadFault →
        HasRisen (S.faults input.old) (S.faults input.new) }
    ensures write_cause { result ≡ Status.WriteFault → HasRisen (O.faults out.old) (O.faults out.new) }
{
    match migrate_records(alloc, most, input, out) {
        Ok(()) => Status::Ok,
        Err(MigrationStop::Stopped(stop)) => Status::from(stop),
        Err(MigrationStop::WriteFault) => Status::WriteFault,
    }
}
