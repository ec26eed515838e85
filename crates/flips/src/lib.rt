// The eight bytes of a flip field, and a flip in units as a kind and such bytes.
#![tactic(auto)]

ghost use Rattle.std.specs.Prelude.{◌≡◌, ◌≤◌, ◌%◌};
ghost use Rattle.rounding.specs.Rounding.{units_in_one};
ghost use Rattle.flips.specs.Written.{field_bytes, units_bits, units_kind, units_field};

// 2^52: an f64's digits are below it, and it stands before them.
const LEADING_ONE: u64 = 0x10_0000_0000_0000;

// 2^21: takes bit 31 of a number there.
const TO_LEADING_ONE: u64 = 0x20_0000;

// The f64 1: exponent 1023, no digit.
const BITS_OF_ONE: u64 = 0x3ff0_0000_0000_0000;

// The eight bytes of a field that is given as one number.
pub fn field_bytes(bits: u64) -> [u8; 8]
    ensures { result ≡ field_bytes bits }
{
    bits.to_le_bytes()
}

// The bits of the f64 that is units / U: whole numbers alone, so that no rounding mode matters. Shifted up, the highest bit of the units is the leading one
// and counts as one in the exponent's field; 2^30, with its one leading zero, so becomes the f64 1, and every further zero halves it.
pub fn units_bits(units: u32) -> u64
    requires { units ≤ units_in_one }
    ensures { result ≡ units_bits units }
{
    if units == 0 {
        return 0;
    }
    let zeros = u32::leading_zeros(units) as u64;
    let digits = (units as u64 * TO_LEADING_ONE) << zeros;
    BITS_OF_ONE - zeros * LEADING_ONE + digits
}

pub fn units_kind(units: u32) -> u8
    ensures { result ≡ units_kind units }
{
    if units == 0 {
        return 0;
    }
    1
}

pub fn units_field(units: u32) -> [u8; 8]
    requires { units ≤ units_in_one }
    ensures { result ≡ units_field units }
{
    field_bytes(units_bits(units))
}
