/// How many updates were accepted and refused.
#[derive(Clone, Copy)]
pub struct Tally {
    pub accepted: u64,
    pub refused: u64,
}

impl Tally {
    pub fn new() -> Tally {
        Tally {
            accepted: 0,
            refused: 0,
        }
    }

    pub fn accept(&mut self) {
        self.accepted = self.accepted.wrapping_add(1);
    }

    pub fn refuse(&mut self) {
        self.refused = self.refused.wrapping_add(1);
    }
}
