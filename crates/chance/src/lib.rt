// A gate's flip field: reading it from its kind and eight bytes, and converting its chance to units.
#![tactic(auto)]

ghost use Rattle.std.specs.Prelude.{◌≡◌, true, false, not, ◌+◌, ◌*◌, ◌<◌, eqb};
ghost use Rattle.std.specs.Float.Ieee.Exact.{HasValue};
ghost use Rattle.std.specs.Float.Ieee.Positive.{num, den};
ghost use Rattle.rounding.specs.Rounding.{units_in_one, to_units};
ghost use Rattle.chance.specs.Number.{chance_scale, whole_chance, at_most_half, from_zero_to_one, chance_bits};
ghost use Rattle.chance.specs.Flip.{four_bytes, first_half, second_half, whole_field, plain_of, strike_of, in_range, chance_of, read_if, read_flip, read_units};

// A strike flips its gate only if it falls into the latching window: its chance is the product of both.
#[derive(Clone, Copy)]
pub struct Strike {
    pub chance: f32,
    pub window: f32,
}

// What a flip field says.
#[derive(Clone, Copy)]
pub enum Flip {
    Never,
    Plain(f64),
    Strike(Strike),
}

// Why a flip field has no units: its kind or its numbers are none, or its chance is above 0.5.
#[derive(Clone, Copy, PartialEq, Eq)]
pub enum FlipFault {
    Unreadable,
    AboveHalf,
}

// The bit patterns of 1, of 0.5 and of minus zero.
const ONE_F64: u64 = 0x3ff0_0000_0000_0000;

const HALF_F64: u64 = 0x3fe0_0000_0000_0000;

const MINUS_ZERO_F64: u64 = 0x8000_0000_0000_0000;

const ONE_F32: u64 = 0x3f80_0000;

const MINUS_ZERO_F32: u64 = 0x8000_0000;

// 2^52: an f64's digits are below it, and it stands before them where the exponent is not 0.
const LEADING_DIGIT: u64 = 0x10_0000_0000_0000;

// Four bytes as one number, the lowest first.
pub fn four_bytes(a: u8, b: u8, c: u8, d: u8) -> u32
    ensures { result ≡ four_bytes a b c d }
{
    u32::from_le_bytes([a, b, c, d])
}

// Whether a bit pattern is that of a number from 0 to 1. From plus zero on the patterns rise with their numbers, and infinity and
// the NaNs come last, so this shuts out a NaN before it is made a float.
fn is_chance(bits: u64, one: u64, minus_zero: u64) -> bool
    ensures { result ≡ chance_bits one minus_zero bits }
{
    bits <= one || bits == minus_zero
}

fn read_never(bits: u64) -> Option<Flip>
    ensures { result ≡ read_if (eqb bits 0) Flip.Never }
{
    if bits == 0 { Some(Flip::Never) } else { None }
}

fn read_plain(bits: u64) -> Option<Flip>
    ensures { result ≡ read_if (in_range (plain_of bits)) (plain_of bits) }
{
    if is_chance(bits, ONE_F64, MINUS_ZERO_F64) {
        Some(Flip::Plain(f64::from_bits(bits)))
    } else {
        None
    }
}

// A bad number is refused even where the other one is 0.
fn read_strike(chance: u32, window: u32) -> Option<Flip>
    ensures { result ≡ read_if (in_range (strike_of chance window)) (strike_of chance window) }
{
    if !is_chance(chance as u64, ONE_F32, MINUS_ZERO_F32) {
        return None;
    }
    if !is_chance(window as u64, ONE_F32, MINUS_ZERO_F32) {
        return None;
    }
    Some(Flip::Strike(Strike {
        chance: f32::from_bits(chance),
        window: f32::from_bits(window),
    }))
}

fn first_half(field: [u8; 8]) -> u32
    ensures { result ≡ first_half field }
{
    four_bytes(field[0], field[1], field[2], field[3])
}

fn second_half(field: [u8; 8]) -> u32
    ensures { result ≡ second_half field }
{
    four_bytes(field[4], field[5], field[6], field[7])
}

fn whole_field(field: [u8; 8]) -> u64
    ensures { result ≡ whole_field field }
{
    u64::from_le_bytes(field)
}

// Reads a flip field, whatever its bytes. The kind is the byte of the image or of the call in C.
pub fn read_flip(kind: u8, field: [u8; 8]) -> Option<Flip>
    ensures { result ≡ read_flip kind field }
{
    match kind {
        0 => read_never(whole_field(field)),
        1 => read_plain(whole_field(field)),
        2 => read_strike(first_half(field), second_half(field)),
        _ => None,
    }
}

// The one place where a chance becomes units; a sign, which only zero may have, is left out. Below 2^-31, half a unit, there are none. From
// there on, with an exponent of 992 or more, a chance is 2^52 and its digits, times 2^(exponent - 1075), and 2^30 units make 1. What is
// rounded are whole numbers, so no rounding mode for floats matters.
fn nearest_units(chance: f64) -> u32
    requires { from_zero_to_one chance ≡ true }
    ensures { result ≡ to_units units_in_one chance_scale (whole_chance (num chance) (den chance)) }
{
    let bits = f64::to_bits(chance);
    let exponent = bits % MINUS_ZERO_F64 / LEADING_DIGIT;
    if exponent < 992 {
        return 0;
    }
    rounding::rounded(bits % LEADING_DIGIT + LEADING_DIGIT, 1 << (1045 - exponent)) as u32
}

// The product of two f32 is exact as an f64.
fn strike_chance(strike: Strike) -> f64
    requires { in_range (Flip.Strike strike) ≡ true }
    ensures { (from_zero_to_one result ≡ true) × (whole_chance (num result) (den result) ≡ chance_of (Flip.Strike strike)) }
{
    let chance = strike.chance as f64;
    let window = strike.window as f64;
    chance * window
}

// A flip's chance before conversion, by cases.
fn exact_chance(flip: Flip) -> f64
    requires { in_range flip ≡ true }
    ensures { (from_zero_to_one result ≡ true) × (whole_chance (num result) (den result) ≡ chance_of flip) }
{
    match flip {
        Flip::Never => 0.0,
        Flip::Plain(chance) => chance,
        Flip::Strike(strike) => strike_chance(strike),
    }
}

// A flip's chance in units.
pub fn units(flip: Flip) -> u32
    requires { in_range flip ≡ true }
    ensures { result ≡ to_units units_in_one chance_scale (chance_of flip) }
{
    nearest_units(exact_chance(flip))
}

// The one place where a chance is held to 0.5. It is held by its bit pattern, which rises with the number; of chances only minus zero has a pattern past
// that of 1. A comparison of floats made opening a twentieth slower.
fn above_half(chance: f64) -> bool
    requires { from_zero_to_one chance ≡ true }
    ensures { result ≡ not (at_most_half (whole_chance (num chance) (den chance))) }
{
    let bits = f64::to_bits(chance);
    HALF_F64 < bits && bits <= ONE_F64
}

// Reads a flip field, holds its chance to 0.5 and converts it: what the image reader and the call that sets a flip use.
pub fn read_units(kind: u8, field: [u8; 8]) -> Result<u32, FlipFault>
    ensures { result ≡ read_units kind field }
{
    let flip = read_flip(kind, field).ok_or(FlipFault::Unreadable)?;
    let chance = exact_chance(flip);
    if above_half(chance) {
        Err(FlipFault::AboveHalf)
    } else {
        Ok(nearest_units(chance))
    }
}

// Units as a fraction of U: a whole number of 32 bits is exact as an f64, and so is its product with 2^-30.
pub fn units_as_f64(units: u32) -> f64
    ensures { HasValue result false units units_in_one }
{
    (units as f64) * 0.000000000931322574615478515625
}
