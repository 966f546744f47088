// Numbers in fields of bits, the most significant bit first: read from lent bytes, and put into
// them one after the other.
#![tactic(auto)]

ghost use Rattle.std.specs.Prelude.{◌≡◌, ◌+◌, ◌*◌, ◌≤◌, ◌<◌, ◌^◌, length};
ghost use Rattle.bit_fields.specs.Bits.{bits_number, bits_of, field};

// Behind seven bits at hand it still fits a word.
const WIDEST_PART: usize = 56;

fn power_of_two(p: usize) -> u64
    requires { p < 64 }
    ensures { result ≡ 2 ^ p }
{
    1 << p
}

// The number that bytes are, eight at the most.
fn bytes_number(s: &[u8]) -> u64
    requires { length s.now ≤ 8 }
    ensures { result ≡ bits_number (bits_of s.now) }
{
    let mut n = 0;
    for b in s {
        n = n * 256 + u64::from(*b);
    }
    n
}

// A field that eight whole bytes are sure to hold.
fn read_part(s: &[u8], at: usize, width: usize) -> u64
    requires { (width ≤ 56) × (at < 8589934592) × (at + width ≤ 8 * length s.now) }
    ensures { result ≡ field s.now at width }
{
    let end = (at + width + 7) / 8;
    let n = bytes_number(&s[at / 8..end]);
    (n >> (end * 8 - at - width)) % power_of_two(width)
}

// Inner: the number in a field, one of over 56 bits read in two parts; asks for bits that are
// there.
pub fn read_field(s: &[u8], at: usize, width: usize) -> u64
    requires { (width ≤ 64) × (at < 4294967296) × (at + width ≤ 8 * length s.now) }
    ensures { result ≡ field s.now at width }
{
    if width <= WIDEST_PART {
        return read_part(s, at, width);
    }
    let high = width - 32;
    read_part(s, at, high) * 4294967296 + read_part(s, at + high, 32)
}

// How many bytes are written, and the bits of the next one that are at hand.
#[derive(Clone, Copy)]
pub struct BitWriter {
    pub place: usize,
    pub count: usize,
    pub bits: u64,
    pub ghost part_of_a_byte: { count < 8 },
    pub ghost held: { bits < 2 ^ count },
}

// Lent bytes into which fields are put, and how far that is.
#[derive(Drop)]
pub struct LentBits<'a> {
    out: &'a mut [u8],
    pub writer: BitWriter,
}

impl<'a> LentBits<'a> {
    ghost use Rattle.std.specs.Prelude.{[], ◌∷◌};
    ghost use Rattle.bit_fields.specs.Bits.{in_bits};
    ghost use Rattle.bit_fields.specs.BitWriters.{HasRoom, FieldsPut, to_the_byte};

    // Inner: a writer at the first of the lent bytes.
    pub fn new(out: &'a mut [u8]) -> LentBits<'a>
        ensures same_reference { result.out.ghost_name ≡ out.entry.ghost_name }
        ensures same_bytes { result.out.now ≡ out.old }
        ensures start { (result.writer.place ≡ 0) × (result.writer.count ≡ 0) }
    {
        LentBits {
            out,
            writer: BitWriter {
                place: 0,
                count: 0,
                bits: 0,
            },
        }
    }

    // A field that fits a word behind the bits at hand.
    fn put_part(&mut self, x: u64, width: usize)
        requires { (width ≤ 56) × (x < 2 ^ width) × HasRoom self.old width }
        ensures { FieldsPut self.old self.new width (in_bits width x ∷ []) }
    {
        let mut count = self.writer.count + width;
        let mut bits = self.writer.bits * power_of_two(width) + x;
        let mut place = self.writer.place;
        // No count of turns: a whole byte leaves in each, and a `for` would need the number of them.
        while 8 <= count {
            count -= 8;
            self.out[place] = (bits >> count) as u8;
            bits = bits % power_of_two(count);
            place += 1;
        }
        self.writer = BitWriter { place, count, bits };
    }

    // Inner: a field put behind those that are put already; asks for room, and a number that fits.
    pub fn put(&mut self, x: u64, width: usize)
        requires { (width ≤ 64) × (x < 2 ^ width) × HasRoom self.old width }
        ensures { FieldsPut self.old self.new width (in_bits width x ∷ []) }
    {
        if width <= WIDEST_PART {
            return self.put_part(x, width);
        }
        self.put_part(x / 4294967296, width - 32);
        self.put_part(x % 4294967296, 32);
    }

    // Inner: zero bits to the byte.
    pub fn fill_byte(&mut self)
        requires { HasRoom self.old (to_the_byte self.old) }
        ensures { FieldsPut self.old self.new (to_the_byte self.old) (in_bits (to_the_byte self.old) 0 ∷ []) }
    {
        self.put(0, (8 - self.writer.count) % 8);
    }
}
