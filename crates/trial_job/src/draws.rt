ghost use Rattle.std.specs.Prelude.{◌≡◌, ◌≢◌, ◌<◌, ◌≤◌};
ghost use Rattle.trial_job.specs.meaning.TrialJob.{first_drawn, next_state, number_below, second_drawn, states_end};

use std::marker::Model;

/// How many states there are.
const STATES: u64 = 2_147_483_648;

/// A linear congruential generator with a state of 31 bits, whose lowest 16 are not told. Contracts see the state.
#[derive(Debug, Drop)]
pub struct Draws {
    state: u64,
}

impl Model for Draws {
    ghost use Rattle.std.specs.Prelude.{ℕ, ◌<◌};
    ghost use Rattle.trial_job.specs.meaning.TrialJob.{states_end};

    ghost Value = { ℕ };

    ghost view = { λ d. d.state };

    ghost invariant = { λ d. d.state < states_end };
}

impl Draws {
    /// A generator that begins at `seed`.
    pub fn new(seed: u32) -> Draws
        requires { seed < states_end }
        ensures { result ≡ seed }
    {
        Draws {
            state: u64::from(seed),
        }
    }

    /// Two different vertices of those from 1 to `vertices`.
    pub fn pair(&mut self, vertices: u32) -> (u32, u32)
        requires { 2 ≤ vertices }
        ensures first { result.0 ≡ first_drawn vertices self.old }
        ensures second { result.1 ≡ second_drawn vertices self.old }
        ensures after { self.new ≡ next_state (next_state self.old) }
        ensures first_within { result.0 ≤ vertices }
        ensures second_within { result.1 ≤ vertices }
        ensures first_counted { 1 ≤ result.0 }
        ensures second_counted { 1 ≤ result.1 }
        ensures different { result.0 ≢ result.1 }
    {
        let first = 1 + self.below(vertices);
        let second = 1 + self.below(vertices - 1);
        if second < first {
            (first, second)
        } else {
            (first, second + 1)
        }
    }

    /// The next number below `end`.
    fn below(&mut self, end: u32) -> u32
        requires { 0 < end }
        ensures number { result ≡ number_below end (next_state self.old) }
        ensures after { self.new ≡ next_state self.old }
        ensures below { result < end }
    {
        self.state = (self.state * 1_103_515_245 + 12_345) % STATES;
        ((self.state / 65_536) % u64::from(end)) as u32
    }
}
