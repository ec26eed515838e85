// A figure and its error as decimal fractions with ten decimals, for reading.
#![tactic(auto)]

ghost use Rattle.std.specs.Prelude.{ℕ, ◌+◌, ◌≤◌, ◌<◌, ◌≡◌, length, get_or};
ghost use Rattle.rounding.specs.Rounding.{units_in_one};
ghost use Rattle.decimals.specs.Decimals.{parts_in_one, shown_parts, shown_error, gap, decimal};

pub const DECIMALS: usize = 10;

// Parts of 10^-10 in 1.
pub const PARTS_IN_ONE: u64 = 10_000_000_000;

// 10^10 and 2^31, both divided by 2^10, so that products with them fit in 64 bits: half units times the first, divided by the second, are parts.
const PARTS: u64 = 9_765_625;

const HALF_UNITS: u64 = 2_097_152;

// A figure in parts, to the nearest.
pub fn shown_parts(units: u32) -> u64
    ensures { (result ≡ shown_parts units_in_one parts_in_one units) × (result ≤ 40_000_000_000) }
{
    rounding::rounded(2 * units as u64 * PARTS, HALF_UNITS)
}

// The error in parts of what is shown of an average, where the figures that it is made of have this error in half units: its own is one more.
pub fn shown_error(average: u32, error: u32) -> u64
    ensures { result ≡ shown_error units_in_one parts_in_one average (error + 1) }
{
    let shown = shown_parts(average) * HALF_UNITS;
    let exact = 2 * average as u64 * PARTS;
    let far = shown.abs_diff(exact) + (error as u64 + 1) * PARTS;
    (far + (HALF_UNITS - 1)) / HALF_UNITS
}

// The last ten digits of a number.
pub fn spell(number: u64) -> [u8; DECIMALS]
    ensures { (length result ≡ 10) × ((i : ℕ) → i < 10 → get_or result i 0 ≡ decimal number i) }
{
    let mut text = [b'0'; DECIMALS];
    let mut rest = number;
    for i in (0..DECIMALS).rev() {
        text[i] = b'0' + (rest % 10) as u8;
        rest /= 10;
    }
    text
}
