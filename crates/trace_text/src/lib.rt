// Text as bytes: words and plain decimals, written to a buffer that the caller lends. They are written by hand, since the library's printing
// makes text on a heap, which would be copied to the buffer. What asks for a base asks that each of its digits is a byte: there are two bases,
// both constants.
#![tactic(auto)]

ghost use Rattle.std.specs.Prelude.{◌≡◌, [], ◌∷◌, ◌+◌, ◌≤◌, length};
ghost use Rattle.trace_text.specs.Text.{spelled, decimal, word, field, numbers, written, Put};

// What parts the fields of a line, and what ends it.
pub const TAB: u8 = b'\t';

pub const LINE_END: u8 = b'\n';

// The base and the byte of the digit 0: of a decimal, and of a word as a number with two decimal digits for each letter.
const TEN: u64 = 10;

const DIGIT_0: u8 = b'0';

const LETTERS: u64 = 100;

const BEFORE_A: u8 = b'a' - 1;

// Writes one byte, and gives the place after it. So do the others with what they write. The place and the buffer are handed on one by one: a
// writer that holds both was tried for three of them: each of its methods has to promise that it keeps its reference to the buffer.
pub fn put_byte(byte: u8, at: usize, out: &mut [u8]) -> usize
    requires { at + 1 ≤ length out.old }
    ensures { Put at (byte ∷ []) out.old result out.new }
{
    out[at] = byte;
    at + 1
}

// How many digits a number has. This loop and the next end when the number is used up: there is no range to go over.
fn digit_count(n: u64, base: u64) -> usize
    requires { 10 ≤ base }
    ensures { result ≡ length (spelled base 0 n) }
{
    let mut left = n;
    let mut count = 1;
    while base <= left {
        left = left / base;
        count += 1;
    }
    count
}

// Stores the digits of a number from the last to the first: they take the room from `at` to `end`.
fn store_digits(n: u64, base: u64, nought: u8, at: usize, end: usize, out: &mut [u8])
    requires { (10 ≤ base) × (nought + base ≤ 256) × (end ≡ at + length (spelled base nought n)) × (end ≤ length out.old) }
    ensures { out.new ≡ written at (spelled base nought n) out.old }
{
    let mut left = n;
    let mut place = end;
    while base <= left {
        place -= 1;
        let digit = left % base;
        out[place] = nought + digit as u8;
        left = left / base;
    }
    out[at] = nought + left as u8;
}

// Writes a number in a base.
fn put_spelled(n: u64, base: u64, nought: u8, at: usize, out: &mut [u8]) -> usize
    requires { (10 ≤ base) × (nought + base ≤ 256) × (at + length (spelled base nought n) ≤ length out.old) }
    ensures { Put at (spelled base nought n) out.old result out.new }
{
    let end = at + digit_count(n, base);
    store_digits(n, base, nought, at, end, out);
    end
}

// Writes a plain decimal.
pub fn put_number(n: u64, at: usize, out: &mut [u8]) -> usize
    requires { at + length (decimal n) ≤ length out.old }
    ensures { Put at (decimal n) out.old result out.new }
{
    put_spelled(n, TEN, DIGIT_0, at, out)
}

// Writes a word.
pub fn put_word(key: u64, at: usize, out: &mut [u8]) -> usize
    requires { at + length (word key) ≤ length out.old }
    ensures { Put at (word key) out.old result out.new }
{
    put_spelled(key, LETTERS, BEFORE_A, at, out)
}

// Writes a number after a tab.
pub fn put_field(n: u64, at: usize, out: &mut [u8]) -> usize
    requires { at + length (field n) ≤ length out.old }
    ensures { Put at (field n) out.old result out.new }
{
    let place = put_byte(TAB, at, out);
    put_number(n, place, out)
}

// Writes numbers, each after a tab.
pub fn put_numbers(ns: &[u64], at: usize, out: &mut [u8]) -> usize
    requires { at + length (numbers ns.now) ≤ length out.old }
    ensures { Put at (numbers ns.now) out.old result out.new }
{
    let mut place = at;
    for n in ns {
        place = put_field(*n, place, out);
    }
    place
}
