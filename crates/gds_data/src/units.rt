// UNITS: whether the unit is a nanometre, over whole numbers.
ghost use Rattle.std.specs.Prelude.{◌≡◌, ◌*◌, ◌^◌, length};
ghost use Rattle.rules.specs.Settings.{within};
ghost use Rattle.rules.specs.Stream.{real_at, is_nanometre};

// The fractions that pass at exponent 57, at which a nanometre has its first digit.
const LEAST: u64 = 19_342_793_771_020_953;

const GREATEST: u64 = 19_342_832_456_647_180;

// Whether a fraction, times 16 for each exponent above 57, passes there. One that leaves 64 bits is too large or 0.
fn passes(fraction: u64, above: u8) -> bool
    ensures { result ≡ within 19_342_793_771_020_953 19_342_832_456_647_180 (fraction * 16 ^ above) }
{
    16u64
        .checked_pow(u32::from(above))
        .and_then(|factor| fraction.checked_mul(factor))
        .is_some_and(|scaled| (LEAST..=GREATEST).contains(&scaled))
}

// The fraction of the real that starts at byte 8.
fn fraction(bytes: &[u8]) -> u64
    requires { length bytes.now ≡ 16 }
    ensures { result ≡ (real_at bytes.now 8).fraction }
{
    u64::from_be_bytes([
        0, bytes[9], bytes[10], bytes[11], bytes[12], bytes[13], bytes[14], bytes[15],
    ])
}

// Whether the second real is a nanometre. From 128 on the first byte has a sign, and below 57 every fraction is too small.
#[tactic(auto, using(crate::proofs::UnitLaws::nanometre, crate::proofs::UnitLaws::signed, crate::proofs::UnitLaws::too_small))]
pub fn is_nanometre(bytes: &[u8]) -> bool
    requires { length bytes.now ≡ 16 }
    ensures { result ≡ is_nanometre (real_at bytes.now 8) }
{
    match bytes[8] {
        exponent @ 57..=127 => passes(fraction(bytes), exponent - 57),
        _ => false,
    }
}
