//! Numbers that look drawn, and are the same in each run.
ghost use Rattle.std.specs.Prelude.{◌<◌};

/// The numbers that are drawn for one window, one after another.
#[derive(Clone, Copy)]
pub struct Draws {
    count: u64,
}

impl Draws {
    /// The draws for the window with this number.
    pub fn new(window: u32) -> Draws {
        Draws {
            count: u64::from(window).wrapping_mul(1 << 32),
        }
    }

    /// A number below `end`, or 0 where that is 0.
    pub fn below(&mut self, end: u32) -> u32 {
        self.count = self.count.wrapping_add(1);
        remainder(mix(self.count), end.max(1))
    }
}

fn remainder(number: u64, end: u32) -> u32
    requires { 0 < end }
    ensures { result < end }
{
    (number % u64::from(end)) as u32
}

/// SplitMix64 (Steele, Lea and Flood 2014).
fn mix(number: u64) -> u64 {
    let a = number.wrapping_add(0x9e37_79b9_7f4a_7c15);
    let b = (a ^ (a >> 30)).wrapping_mul(0xbf58_476d_1ce4_e5b9);
    let c = (b ^ (b >> 27)).wrapping_mul(0x94d0_49bb_1331_11eb);
    c ^ (c >> 31)
}
