// Bytes read as numbers, the bits of numbers, searches among numbers, and numbers and words put into lent memory.
#![tactic(auto)]

ghost use Rattle.std.specs.Prelude.{◌≡◌, Bool, ℕ, ◌+◌, ◌-◌, ◌*◌, ◌^◌, ◌<◌, ◌≤◌, length, get_or, replicate};
ghost use Rattle.std.specs.Int.Bits.{bit_or};
ghost use Rattle.numbers.specs.Numbers.{number, written, one_if, first, count, every};
ghost use Rattle.numbers.specs.Bits.{bit, mask, within, disjoint, IsLowestBit};
ghost use Rattle.numbers.specs.Bytes.{word_size, word_bytes};
ghost use Rattle.numbers.specs.Decimal.{decimal};
ghost use Rattle.numbers.specs.Put.{Put};

// The byte at a place: it is below 256, which an index alone does not say.
pub fn byte(bytes: &[u8], at: usize) -> u8
    requires { at < length bytes.now }
    ensures { result ≡ get_or bytes.now at 0 }
{
    bytes[at]
}

// The number that two bytes make, the most significant first.
#[tactic(auto, unfolding(crate::specs::Numbers::number))]
pub fn number2(bytes: &[u8], at: usize) -> u16
    requires { at + 2 ≤ length bytes.now }
    ensures { result ≡ number bytes.now at 2 }
{
    u16::from_be_bytes([bytes[at], bytes[at + 1]])
}

// The number that four bytes make, the most significant first.
#[tactic(auto, unfolding(crate::specs::Numbers::number))]
pub fn number4(bytes: &[u8], at: usize) -> u32
    requires { at + 4 ≤ length bytes.now }
    ensures { result ≡ number bytes.now at 4 }
{
    u32::from_be_bytes([bytes[at], bytes[at + 1], bytes[at + 2], bytes[at + 3]])
}

// The number that eight bytes make, the most significant first.
#[tactic(auto, unfolding(crate::specs::Numbers::number))]
pub fn number8(bytes: &[u8], at: usize) -> u64
    requires { at + 8 ≤ length bytes.now }
    ensures { result ≡ number bytes.now at 8 }
{
    u64::from_be_bytes([
        bytes[at],
        bytes[at + 1],
        bytes[at + 2],
        bytes[at + 3],
        bytes[at + 4],
        bytes[at + 5],
        bytes[at + 6],
        bytes[at + 7],
    ])
}

// The number whose only bit is v.
pub fn weight(v: usize) -> u64
    requires { v < 64 }
    ensures { result ≡ 2 ^ v }
{
    1 << v
}

// The weight of v, if the test passes.
pub fn weight_if(test: bool, v: usize) -> u64
    requires { v < 64 }
    ensures { result ≡ one_if test * 2 ^ v }
{
    u64::from(test) << v
}

// 1 if the test passes, else 0.
pub fn one_if(test: bool) -> usize
    ensures { result ≡ one_if test }
{
    usize::from(test)
}

// Whether bit v is 1.
pub fn bit_of(number: u64, v: usize) -> bool
    requires { v < 64 }
    ensures { result ≡ bit number v }
{
    (number >> v) % 2 == 1
}

// The number with bit v too.
pub fn with_bit(number: u64, v: usize) -> u64
    requires { v < 64 }
    ensures { result ≡ bit_or number (2 ^ v) }
{
    number | weight(v)
}

// Whether every bit of a is one of b.
pub fn is_within(a: u64, b: u64) -> bool
    ensures { result ≡ within a b }
{
    a & b == a
}

// Whether no bit of a is one of b.
pub fn is_disjoint(a: u64, b: u64) -> bool
    ensures { result ≡ disjoint a b }
{
    a & b == 0
}

// The lowest bit of a number that is not 0.
pub fn lowest_bit(number: u64) -> usize
    requires { 0 < number }
    ensures { IsLowestBit 64 number result }
{
    number.trailing_zeros() as usize
}

// The number without its lowest bit.
pub fn without_lowest(number: u64) -> u64
    requires { 0 < number }
    ensures { (v : ℕ) → IsLowestBit 64 number v → result ≡ number - 2 ^ v }
{
    number & (number - 1)
}

// The number without bit v.
pub fn without_bit(number: u64, v: usize) -> u64
    requires { v < 64 }
    ensures { result ≡ number - one_if (bit number v) * 2 ^ v }
{
    number - (((number >> v) % 2) << v)
}

// ## Tests of the numbers below n

// The number with bit v for each v that passes the test.
pub fn mask<F: Fn(usize) -> bool>(n: usize, test: F) -> u64
    requires small { n ≤ 64 }
    requires callable { (v : ℕ) → v < n → F.pre test v }
    ensures { (p : ℕ → Bool) → ((v : ℕ) (r : Bool) → v < n → F.post test v r → r ≡ p v) → result ≡ mask p n }
{
    let mut bits = 0;
    for v in 0..n {
        bits = bits + weight_if(test(v), v);
    }
    bits
}

// Whether all pass the test.
pub fn all<F: Fn(usize) -> bool>(n: usize, test: F) -> bool
    requires { (v : ℕ) → v < n → F.pre test v }
    ensures { (p : ℕ → Bool) → ((v : ℕ) (r : Bool) → v < n → F.post test v r → r ≡ p v) → result ≡ every p n }
{
    for v in 0..n {
        if !test(v) {
            return false;
        }
    }
    true
}

// The first that passes the test; n where none does, as the definition `first` has it.
pub fn first_that<F: Fn(usize) -> bool>(n: usize, test: F) -> usize
    requires { (v : ℕ) → v < n → F.pre test v }
    ensures { (p : ℕ → Bool) → ((v : ℕ) (r : Bool) → v < n → F.post test v r → r ≡ p v) → result ≡ first p n }
{
    for v in 0..n {
        if test(v) {
            return v;
        }
    }
    n
}

// How many pass the test.
pub fn count_that<F: Fn(usize) -> bool>(n: usize, test: F) -> usize
    requires { (v : ℕ) → v < n → F.pre test v }
    ensures { (p : ℕ → Bool) → ((v : ℕ) (r : Bool) → v < n → F.post test v r → r ≡ p v) → result ≡ count p n }
{
    let mut passed = 0;
    for v in 0..n {
        passed = passed + one_if(test(v));
    }
    passed
}

// ## Lent memory

// All bytes 0.
pub fn clear(bytes: &mut [u8])
    ensures { bytes.new ≡ replicate (length bytes.old) 0 }
{
    bytes.fill(0);
}

// A number into lent memory, from a place on, high byte first.
#[tactic(auto, unfolding(crate::specs::Bytes::word_bytes))]
pub fn store_word(memory: &mut [u8], at: usize, word: u64)
    requires { at + word_size ≤ length memory.old }
    ensures { memory.new ≡ written memory.old at (word_bytes word) }
{
    let bytes = word.to_be_bytes();
    let end = at + bytes.len();
    memory[at..end].copy_from_slice(&bytes);
}

// A number in decimal digits, of which it has at most so many, and the place behind them.
pub fn put_number(text: &mut [u8], at: usize, n: u64, places: usize) -> usize
    requires { (1 ≤ places) × (n < 10 ^ places) × (at + places ≤ length text.old) }
    ensures { Put text.old text.new at (decimal n) result × (result ≤ at + places) }
{
    let last = if n < 10 {
        at
    } else {
        put_number(text, at, n / 10, places - 1)
    };
    text[last] = b'0' + (n % 10) as u8;
    last + 1
}

// One slice into another. Not by std's `copy_from_slice`, which asks the host for `memmove` where the compiler cannot see
// the length: the archive needs no more of its host than `memcpy` and `memset`.
pub fn copy(to: &mut [u8], from: &[u8])
    requires { length to.old ≡ length from.now }
    ensures { to.new ≡ from.now }
{
    for i in 0..from.len() {
        to[i] = from[i];
    }
}

// The bytes of a word, and the place behind them.
pub fn put_word(text: &mut [u8], at: usize, word: &[u8]) -> usize
    requires { at + length word.now ≤ length text.old }
    ensures { Put text.old text.new at word.now result }
{
    let end = at + word.len();
    copy(&mut text[at..end], word);
    end
}
