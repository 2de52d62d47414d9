use crate::case::{CaseFault, field, number};
use crate::text::Shown;
use job_io::{ByteList, Source};
use std::alloc::Global;
use std::fmt::Write;
use trial_job::{JobSource, trial_job};

/// `trial SEED VERTICES UPDATES`: the bytes of a trial's job, and how many of them its source gives.
pub fn trial(alloc: Global, text: &str, answer: &mut String) -> Result<(), CaseFault> {
    let (seed, text) = field(text);
    let (vertices, updates) = field(text);
    let (seed, vertices, updates) = (number(seed)?, number(vertices)?, number(updates)?);
    if seed > 2_147_483_647 || vertices < 2 {
        return Err(CaseFault::BadCase);
    }
    let job = trial_job(alloc, seed, vertices, updates)?;
    write!(answer, "[{}]", Shown(job.as_slice()))?;
    show_given(job, answer)
}

/// How many bytes a source of them gives in two reads.
fn show_given(job: ByteList, answer: &mut String) -> Result<(), CaseFault> {
    let mut source = JobSource::new(job);
    let mut room = [0; 100];
    for _ in 0..2 {
        match source.read(&mut room) {
            Ok(given) => write!(answer, " {given}")?,
            Err(_) => answer.push_str(" failed")?,
        }
    }
    Ok(())
}
