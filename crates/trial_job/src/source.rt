ghost use Rattle.std.specs.Prelude.{◌≡◌, Some, length, min, take};

use job_io::{ByteList, Failed, Source};
use std::marker::Model;

/// A source of a job's bytes, which never fails. Contracts see those that are left.
#[derive(Debug, Drop)]
pub struct JobSource {
    job: ByteList,
    given: usize,
}

impl Model for JobSource {
    ghost use Rattle.std.specs.Prelude.{ℕ, List, ◌≤◌, length, drop};

    ghost Value = { List ℕ };

    ghost view = { λ s. drop s.given s.job };

    ghost invariant = { λ s. s.given ≤ length s.job };
}

impl JobSource {
    /// A source that gives all of the job.
    pub fn new(job: ByteList) -> JobSource
        ensures { result ≡ job }
    {
        JobSource { job, given: 0 }
    }
}

impl Source for JobSource {
    ghost left = { λ s. Some s };

    ghost faults = { λ _. 0 };

    /// Gives as many bytes as there is room for.
    fn read(&mut self, buf: &mut [u8]) -> Result<usize, Failed> {
        let (_, left) = self.job.split_at(self.given);
        let n = copy_front(left, buf);
        self.given += n;
        Ok(n)
    }
}

/// Copies as many of the first bytes as there is room for, and tells how many.
fn copy_front(from: &[u8], into: &mut [u8]) -> usize
    ensures count { result ≡ min (length into.old) (length from.now) }
    ensures front { take result into.new ≡ take result from.now }
{
    let n = into.len().min(from.len());
    into[..n].copy_from_slice(&from[..n]);
    n
}
