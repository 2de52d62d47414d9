ghost use Rattle.rehearsal.specs.meaning.Schedules.{AreDigits};

use crate::case::CaseFault;
use crate::draws::Draws;
use graph_types::List;
use std::alloc::Global;

/// Digits that choose among the events of a machine.
#[derive(Drop)]
pub struct Schedule {
    digits: List<u8>,
    ghost digits_alone: { AreDigits digits },
}

impl Schedule {
    fn new(alloc: Global) -> Schedule {
        Schedule {
            digits: List::new(alloc),
        }
    }

    pub fn digits(&self) -> &[u8]
        ensures { AreDigits result.now }
    {
        self.digits.as_slice()
    }

    /// Adds the last digit of a number.
    fn push(&mut self, number: u32) -> Result<(), CaseFault> {
        self.digits.push(b'0' + (number % 10) as u8)?;
        Ok(())
    }
}

pub fn read_schedule(alloc: Global, digits: &str) -> Result<Schedule, CaseFault> {
    let mut schedule = Schedule::new(alloc);
    for byte in digits.as_bytes() {
        schedule.push(u32::from(byte.saturating_sub(b'0')))?;
    }
    Ok(schedule)
}

pub fn draw_schedule(alloc: Global, draws: &mut Draws, digits: u32) -> Result<Schedule, CaseFault> {
    let mut schedule = Schedule::new(alloc);
    for _ in 0..digits {
        schedule.push(draws.below(10))?;
    }
    Ok(schedule)
}
