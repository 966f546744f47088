// A sign and so many ten-thousandths as text: four decimals, right-aligned in at least 16 columns.
ghost use Rattle.std.specs.Prelude.{◌≡◌, ◌+◌, ◌-◌, ◌*◌, ◌/◌, ◌^◌, ◌≤◌, ◌<◌, max, length};
ghost use Rattle.number_text.specs.write.Writing.{sign_text, HasRoom, Puts};
ghost use Rattle.decimal.specs.four_decimals.FourDecimals.{four_decimals};
ghost use Rattle.decimal.specs.four_decimals.Pieces.{signed_decimals, front_text, whole_start, array_text};

use number_text::Writer;

const COLUMNS: usize = 16;

// How many bytes a number of `size` bytes takes with its sign.
fn columns(negative: bool, size: usize) -> usize
    requires { size ≤ 1000 }
    ensures { result ≡ max 16 (length (sign_text negative) + size) }
{
    (usize::from(negative) + size).max(COLUMNS)
}

// The blanks and the sign before a number of `size` bytes.
fn put_front(negative: bool, size: usize, w: &mut Writer)
    requires { HasRoom w.old (front_text negative size) }
    ensures { Puts w.old w.new (front_text negative size) }
{
    let blanks = COLUMNS
        .saturating_sub(size)
        .saturating_sub(usize::from(negative));
    w.put_run(b' ', blanks);
    w.put_sign(negative);
}

// Inner: the text of so many ten-thousandths; asks for room.
pub(crate) fn put_small(negative: bool, tens: u64, w: &mut Writer)
    requires { HasRoom w.old (signed_decimals negative tens) }
    ensures { Puts w.old w.new (signed_decimals negative tens) }
{
    let whole = tens / 10000;
    let count = number_text::decimal_length(whole);
    put_front(negative, count + 5, w);
    w.put_digits(whole, count);
    w.put(b'.');
    w.put_digits(tens, 4);
}

// Inner: how many bytes the text of so many ten-thousandths takes.
pub(crate) fn small_length(negative: bool, tens: u64) -> usize
    ensures { result ≡ length (signed_decimals negative tens) }
{
    // Below ten thousand million a number fills the columns at the most: nothing is counted.
    if tens < 100_000_000_000_000 {
        return COLUMNS;
    }
    columns(negative, number_text::decimal_length(tens / 10000) + 5)
}

// So many digits are enough for a number below 2^63 times so many factors two: three factors two
// are less than one of ten.
fn digits_enough(twos: usize) -> usize
    requires { twos ≤ 975 }
    ensures { result ≡ twos / 3 + 22 }
{
    twos / 3 + 22
}

// Where the whole part begins among the digits d: past its zeros, but before its last digit at the
// latest.
fn whole_start(d: &[u8]) -> usize
    requires { 5 ≤ length d.now }
    ensures value { result ≡ whole_start d.now }
    ensures before_last { result + 5 ≤ length d.now }
{
    let end = d.len() - 5;
    crate::big_digits::leading_zeros(&d[..end])
}

// The digits d of a number of ten-thousandths, as text.
fn put_array(negative: bool, d: &[u8], w: &mut Writer)
    requires in_bounds { (5 ≤ length d.now) × (length d.now ≤ 347) }
    requires room { HasRoom w.old (array_text negative d.now) }
    ensures { Puts w.old w.new (array_text negative d.now) }
{
    let start = whole_start(d);
    let point = d.len() - 4;
    put_front(negative, d.len() + 1 - start, w);
    w.put_bytes(&d[start..point]);
    w.put(b'.');
    w.put_bytes(&d[point..]);
}

fn put_by_digits(negative: bool, n: u64, twos: usize, space: &mut [u8], w: &mut Writer)
    requires in_bounds { (5 ≤ length space.old) × (length space.old ≤ 347) }
    requires twos_bound { n * 2 ^ twos < 10 ^ length space.old }
    requires room { HasRoom w.old (signed_decimals negative (n * 2 ^ twos)) }
    ensures { Puts w.old w.new (signed_decimals negative (n * 2 ^ twos)) }
{
    crate::big_digits::put_scaled(n, twos, space);
    put_array(negative, space, w);
}

// Inner: the text of n x 2^twos ten-thousandths; asks for n below 2^63, twos up to 975 and room.
pub(crate) fn put_large(negative: bool, n: u64, twos: usize, w: &mut Writer)
    requires n_bound { n < 2 ^ 63 }
    requires twos_bound { twos ≤ 975 }
    requires room { HasRoom w.old (signed_decimals negative (n * 2 ^ twos)) }
    ensures { Puts w.old w.new (signed_decimals negative (n * 2 ^ twos)) }
{
    let mut space = [b'0'; 347];
    let count = digits_enough(twos);
    put_by_digits(negative, n, twos, &mut space[..count], w);
}

fn size_by_digits(n: u64, twos: usize, space: &mut [u8]) -> usize
    requires in_bounds { (5 ≤ length space.old) × (length space.old ≤ 347) }
    requires twos_bound { n * 2 ^ twos < 10 ^ length space.old }
    ensures { (result ≡ length (four_decimals (n * 2 ^ twos))) × (result ≤ 348) }
{
    crate::big_digits::put_scaled(n, twos, space);
    space.len() + 1 - whole_start(space)
}

// Inner: how many bytes n x 2^twos ten-thousandths take; asks for n below 2^63 and twos up to 975.
pub(crate) fn large_length(negative: bool, n: u64, twos: usize) -> usize
    requires n_bound { n < 2 ^ 63 }
    requires twos_bound { twos ≤ 975 }
    ensures { result ≡ length (signed_decimals negative (n * 2 ^ twos)) }
{
    let mut space = [b'0'; 347];
    let count = digits_enough(twos);
    columns(negative, size_by_digits(n, twos, &mut space[..count]))
}
