ghost use Rattle.std.specs.Prelude.{◌<◌};

/// A number below `end`.
pub(crate) fn below(number: u64, end: u32) -> u32
    requires { 0 < end }
    ensures { result < end }
{
    (number % u64::from(end)) as u32
}

/// SplitMix64 (Steele, Lea and Flood 2014).
pub(crate) fn mix(number: u64) -> u64 {
    let a = number.wrapping_add(0x9e37_79b9_7f4a_7c15);
    let b = (a ^ (a >> 30)).wrapping_mul(0xbf58_476d_1ce4_e5b9);
    let c = (b ^ (b >> 27)).wrapping_mul(0x94d0_49bb_1331_11eb);
    c ^ (c >> 31)
}
