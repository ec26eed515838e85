// Rounding: a division to the nearest whole number, and the one rounding step of the figures, the mean of two figures. Every formula that rounds stands
// here.
#![tactic(auto)]

ghost use Rattle.std.specs.Prelude.{◌≡◌, ◌+◌, ◌-◌, ◌*◌, ◌≤◌, ◌<◌};
ghost use Rattle.rounding.specs.Rounding.{units_in_one, round_div, blend};

// U of document 01: the number of units in 1, and the same in the width of a figure.
pub const UNITS_IN_ONE: u64 = 1_073_741_824;

pub const ONE: u32 = UNITS_IN_ONE as u32;

const HALF: u64 = UNITS_IN_ONE / 2;

// `sum` divided by `count`, to the nearest whole number: just short of half a count is added, and at an odd quotient the half itself, so that a half goes
// to the even number; no branch is taken.
pub fn rounded(sum: u64, count: u64) -> u64
    requires count_nonzero { 0 < count }
    requires count_bound { 2 * sum + 2 * count < 18_446_744_073_709_551_616 }
    ensures { result ≡ round_div sum count }
{
    (2 * sum + (count - 1) + sum / count % 2) / (2 * count)
}

// The mean of `right` and `wrong`, where `wrong` has the share `failure` of U, to the nearest unit. U is even, so nothing need be doubled; factors that are
// 32-bit numbers, widened as they stand, are multiplied several at a time.
pub fn blended(right: u32, wrong: u32, failure: u32) -> u32
    requires { (right ≤ units_in_one) × (wrong ≤ units_in_one) × (failure ≤ units_in_one) }
    ensures { result ≡ blend units_in_one right wrong failure }
{
    let sum = right as u64 * (ONE - failure) as u64 + wrong as u64 * failure as u64;
    ((sum + (HALF - 1) + sum / UNITS_IN_ONE % 2) / UNITS_IN_ONE) as u32
}

// The mean of a figure m and its rest U - m, with the share p: m × (U - p) + (U - m) × p is (m + p) × U - 2 × m × p, one product. What is taken off, m × p
// of U / 2, is rounded up at a half; where it is a half and leaves an odd number, one is put back.
pub fn blended_rest(figure: u32, failure: u32) -> u32
    requires { (figure ≤ units_in_one) × (failure ≤ units_in_one) }
    ensures { result ≡ blend units_in_one figure (units_in_one - figure) failure }
{
    let product = figure as u64 * failure as u64 + HALF / 2;
    let near = figure + failure - (product / HALF) as u32;
    if product % HALF == 0 {
        near + near % 2
    } else {
        near
    }
}
