// A gate's figures: the fold of the sixteen values, the gate step and the output product.
//
// A source is read as one word, 2 × failure + right value. The fold has the pin count as a const parameter, so that the compiler
// writes out its loops in each instance and keeps the sixteen values in registers. A pin that cannot fail need not be folded: it
// only moves the index that the others start from.
#![tactic(auto)]

ghost use Rattle.std.specs.Prelude.{◌≡◌, [], ◌∷◌, map, ℕ, ◌+◌, ◌*◌, ◌/◌, ◌%◌, ◌^◌, ◌<◌, ◌≤◌, get_or, take};
ghost use Rattle.rounding.specs.Rounding.{units_in_one, blend};
ghost use Rattle.figure.specs.Figure.{failure_of, fold_step, fold_pins, gate_step, output_step};
ghost use Rattle.figure.specs.Steps.{first_pins, room, spread_pin, spread_pins, differs, NoneOrAll, pins_word};

// Each of the first `used` indices becomes two: the pin right, the pin wrong. The pin adds its bit to an index where its value is 1.
fn spread_pin(
    indices: [u32; 16],
    used: usize,
    words: &[u32; 4],
    bits: &[u32; 4],
    pin: usize,
) -> [u32; 16]
    requires used_nonzero { (0 < used) × (used ≤ 8) × (pin < 4) }
    requires by_index { (i : ℕ) → i < used → get_or indices i 0 + get_or bits.now pin 0 ≤ 15 }
    ensures { take (2 * used) result ≡ spread_pin (get_or words.now pin 0) (get_or bits.now pin 0) (take used indices) }
{
    let bit = bits[pin];
    let right = words[pin] % 2 * bit;
    let wrong = bit - right;
    let mut spread = [0u32; 16];
    for i in 0..used {
        let x = indices[i];
        spread[2 * i] = x + right;
        spread[2 * i + 1] = x + wrong;
    }
    spread
}

// How many error patterns so many pins have.
fn patterns(pins: usize) -> usize
    requires { pins ≤ 4 }
    ensures { result ≡ 2 ^ pins }
{
    1 << pins
}

// The indices where the first COUNT pins of the arrays are right or wrong, from `start` on: the last pin is spread first.
fn spread_pins<const COUNT: usize>(start: u32, words: &[u32; 4], bits: &[u32; 4]) -> [u32; 16]
    requires { (COUNT ≤ 4) × (start + room (first_pins COUNT words.now bits.now) ≤ 15) }
    ensures { take (2 ^ COUNT) result ≡ spread_pins (first_pins COUNT words.now bits.now) (start ∷ []) }
{
    let mut at = [start; 16];
    for pin in 0..COUNT {
        let next = spread_pin(at, patterns(pin), words, bits, COUNT - 1 - pin);
        at = next;
    }
    at
}

// The table's answer at one index.
fn answer_at(table: u32, index: u32) -> u32
    requires { index ≤ 15 }
    ensures { result ≡ table / 2 ^ index % 2 }
{
    (table >> index) % 2
}

// Step 1 of the figures at one index: U where the table's answer there is not the right one.
fn difference(table: u32, right: u32, index: u32) -> u32
    requires { index ≤ 15 }
    ensures { result ≡ differs units_in_one table right index }
{
    if answer_at(table, index) == right {
        0
    } else {
        rounding::ONE
    }
}

// Step 1 at each of the first `used` indices.
fn start_values(table: u32, right: u32, indices: [u32; 16], used: usize) -> [u32; 16]
    requires used_bound { used ≤ 16 }
    requires by_index { (i : ℕ) → i < used → get_or indices i 0 ≤ 15 }
    ensures result_value { take used result ≡ map (differs units_in_one table right) (take used indices) }
    ensures by_index_2 { (i : ℕ) → i < used → NoneOrAll units_in_one (get_or result i 0) }
{
    let mut values = [0u32; 16];
    for i in 0..used {
        values[i] = difference(table, right, indices[i]);
    }
    values
}

// A pair of the first step, (pin right, pin wrong), made one value. Both are 0 or U, so the quotients are 0 or 1, and the mean is exact: the
// shares of those that are U. The compiler makes moves of it, neither products nor branches.
fn first_pair(right: u32, wrong: u32, failure: u32) -> u32
    requires none_or_all { NoneOrAll units_in_one right }
    requires none_or_all_2 { NoneOrAll units_in_one wrong }
    requires failure_le_units_in_one { failure ≤ units_in_one }
    ensures { result ≡ blend units_in_one right wrong failure }
{
    right / rounding::ONE * (rounding::ONE - failure) + wrong / rounding::ONE * failure
}

// Of the first 2 × half values each pair becomes one, its mean, and half as many are in use.
fn fold_pairs<F: Fn(u32, u32) -> u32>(values: [u32; 16], half: usize, mean: F) -> [u32; 16]
    requires half_bound { half ≤ 8 }
    requires callable { (i : ℕ) → i < half → F.pre mean (get_or values (2 * i) 0) (get_or values (2 * i + 1) 0) }
    ensures { (i : ℕ) → i < half → F.post mean (get_or values (2 * i) 0) (get_or values (2 * i + 1) 0) (get_or result i 0) }
{
    let mut values = values;
    for i in 0..half {
        values[i] = mean(values[2 * i], values[2 * i + 1]);
    }
    values
}

// Step 2 of the figures for the pin that is folded first, on the first 2 × half values of step 1: each pair becomes one, and half as many
// are in use. Nothing is rounded.
fn fold_first(values: [u32; 16], half: usize, words: &[u32; 4], pin: usize) -> [u32; 16]
    requires half_bound { (half ≤ 8) × (pin < 4) × (failure_of (get_or words.now pin 0) ≤ units_in_one) }
    requires by_index { (i : ℕ) → i < 2 * half → NoneOrAll units_in_one (get_or values i 0) }
    ensures result_value { take half result ≡ fold_step units_in_one (failure_of (get_or words.now pin 0)) (take (2 * half) values) }
    ensures by_index_2 { (i : ℕ) → i < half → get_or result i 0 ≤ units_in_one }
{
    let failure = words[pin] / 2;
    fold_pairs(
        values,
        half,
        |right, wrong| first_pair(right, wrong, failure),
    )
}

// Step 2 of the figures for a later pin: of the first 2 × half values each pair becomes one, and half as many are in use.
fn fold_step(values: [u32; 16], half: usize, words: &[u32; 4], pin: usize) -> [u32; 16]
    requires half_bound { (half ≤ 8) × (pin < 4) × (failure_of (get_or words.now pin 0) ≤ units_in_one) }
    requires by_index { (i : ℕ) → i < 2 * half → get_or values i 0 ≤ units_in_one }
    ensures result_value { take half result ≡ fold_step units_in_one (failure_of (get_or words.now pin 0)) (take (2 * half) values) }
    ensures by_index_2 { (i : ℕ) → i < half → get_or result i 0 ≤ units_in_one }
{
    let failure = words[pin] / 2;
    fold_pairs(
        values,
        half,
        |right, wrong| rounding::blended(right, wrong, failure),
    )
}

// The last value of the fold: the first pin of COUNT is folded exactly, the later ones in turn.
fn fold_pins<const COUNT: usize>(values: [u32; 16], words: &[u32; 4]) -> u32
    requires count_bound { (0 < COUNT) × (COUNT ≤ 4) }
    requires by_index { (i : ℕ) → i < COUNT → failure_of (get_or words.now i 0) ≤ units_in_one }
    requires by_index_2 { (i : ℕ) → i < 2 ^ COUNT → NoneOrAll units_in_one (get_or values i 0) }
    ensures value { result ≡ fold_pins units_in_one (map failure_of (take COUNT words.now)) (take (2 ^ COUNT) values) }
    ensures fits { result ≤ units_in_one }
{
    let mut values = fold_first(values, patterns(COUNT - 1), words, 0);
    for pin in 1..COUNT {
        let next = fold_step(values, patterns(COUNT - 1 - pin), words, pin);
        values = next;
    }
    values[0]
}

// Step 3 of the figures, the gate step: from the last value and the flip.
pub fn gate_step(last: u32, flip: u32) -> u32
    requires { (last ≤ units_in_one) × (flip ≤ units_in_one) }
    ensures { result ≡ gate_step units_in_one last flip }
{
    rounding::blended_rest(last, flip)
}

// The output product: the reliability after one more output whose failure is given.
pub fn output_step(reliability: u32, failure: u32) -> u32
    requires { (reliability ≤ units_in_one) × (failure ≤ units_in_one) }
    ensures { result ≡ output_step units_in_one reliability failure }
{
    rounding::blended(reliability, 0, failure)
}

// A gate's word, 2 × failure + right value, from the last value of the fold, the flip and the right answer.
fn word_of(last: u32, flip: u32, right: u32) -> u32
    requires { (last ≤ units_in_one) × (flip ≤ units_in_one) × (right ≤ 1) }
    ensures { result ≡ 2 * gate_step units_in_one last flip + right }
{
    2 * gate_step(last, flip) + right
}

// A gate's word where no pin can fail, from plain numbers as `pins_word` has them: the right answer, and the flip for its failure.
fn word_none(table: u32, start: u32, flip: u32) -> u32
    requires { (start ≤ 15) × (flip ≤ units_in_one) }
    ensures { result ≡ pins_word units_in_one table start [] flip }
{
    word_of(0, flip, answer_at(table, start))
}

// A gate's word where the first COUNT pins of the arrays may fail. At the first index every pin is right.
fn word_of_pins<const COUNT: usize>(
    table: u32,
    start: u32,
    words: [u32; 4],
    bits: [u32; 4],
    flip: u32,
) -> u32
    requires count_bound { (0 < COUNT) × (COUNT ≤ 4) × (flip ≤ units_in_one) }
    requires bits_bound { start + room (first_pins COUNT words bits) ≤ 15 }
    requires by_index { (i : ℕ) → i < COUNT → failure_of (get_or words i 0) ≤ units_in_one }
    ensures { result ≡ pins_word units_in_one table start (first_pins COUNT words bits) flip }
{
    let at = spread_pins::<COUNT>(start, &words, &bits);
    let right = answer_at(table, at[0]);
    let values = start_values(table, right, at, patterns(COUNT));
    let last = fold_pins::<COUNT>(values, &words);
    word_of(last, flip, right)
}

// A gate's word where the first `count` pins may fail, with these words and bits. Three and four are called from two places each: a function that is called
// from one place becomes a part of its caller, and every gate with fewer such pins would pay for its sixteen values, a tenth of the time of opening.
pub fn pins_word(
    table: u32,
    start: u32,
    count: usize,
    words: [u32; 4],
    bits: [u32; 4],
    flip: u32,
) -> u32
    requires count_bound { (count ≤ 4) × (flip ≤ units_in_one) }
    requires bits_bound { start + room (first_pins count words bits) ≤ 15 }
    requires by_index { (i : ℕ) → i < count → failure_of (get_or words i 0) ≤ units_in_one }
    ensures { result ≡ pins_word units_in_one table start (first_pins count words bits) flip }
{
    match count {
        0 => word_none(table, start, flip),
        1 => word_of_pins::<1>(table, start, words, bits, flip),
        2 => word_of_pins::<2>(table, start, words, bits, flip),
        3 => {
            if flip == 0 {
                word_of_pins::<3>(table, start, words, bits, 0)
            } else {
                word_of_pins::<3>(table, start, words, bits, flip)
            }
        }
        _ => {
            if flip == 0 {
                word_of_pins::<4>(table, start, words, bits, 0)
            } else {
                word_of_pins::<4>(table, start, words, bits, flip)
            }
        }
    }
}
