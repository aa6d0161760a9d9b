// A line of a trace, read byte by byte into its fields: a word and numbers, parted by tabs. Nothing of the line is stored but its fields, so a
// line may have any length. A caller lends the fields, so a line goes beside them and counts them.
#![tactic(auto)]

ghost use Rattle.std.specs.Prelude.{◌≡◌, ◌≤◌, ◌<◌};
ghost use Rattle.std.specs.Option.{unwrap_or};
ghost use Rattle.trace_fields.specs.Fields.{start, spoilt, cannot_follow, more, letter, digit, reading, cannot_end, closed, fed, read_on, counted, is_empty};

use trace_text::TAB;

// A line that is being read: how many fields stand before this one, the value of this one so far, whether any of it was read, and whether the
// line is in no form. Its parts stand one by one, as flags and numbers: an Option of them is a narrower type, and `read`, `end` and `request`
// take any line.
#[derive(Clone, Copy)]
pub struct Line {
    pub count: usize,
    pub value: u64,
    pub begun: bool,
    pub bad: bool,
}

impl Line {
    // Nothing was read yet.
    pub fn start() -> Line
        ensures { result ≡ start }
    {
        Line {
            count: 0,
            value: 0,
            begun: false,
            bad: false,
        }
    }

    // A line in no form.
    fn spoilt() -> Line
        ensures { result ≡ spoilt }
    {
        Line {
            count: 0,
            value: 0,
            begun: false,
            bad: true,
        }
    }

    // Whether a byte cannot go on a field whose digits are the bytes from `low` to `high`.
    fn cannot_follow(self, low: u8, high: u8, byte: u8) -> bool
        ensures { result ≡ cannot_follow low high self byte }
    {
        self.bad || self.begun && self.value == 0 || byte < low || high < byte
    }

    // One byte more of a field in a base, the digit 0 having the byte `nought`: `None` where that spoils the line.
    fn more(self, base: u64, nought: u8, low: u8, high: u8, byte: u8) -> Option<Line>
        requires { nought ≤ low }
        ensures { unwrap_or result spoilt ≡ more base nought low high self byte }
    {
        if self.cannot_follow(low, high, byte) {
            return None;
        }
        let digit = u64::from(byte - nought);
        let value = self.value.checked_mul(base)?.checked_add(digit)?;
        Some(Line {
            count: self.count,
            value,
            begun: true,
            bad: false,
        })
    }

    // One letter more of the word: two decimal digits of its value. This and the next are one call of `more` each.
    fn letter(self, byte: u8) -> Line
        ensures { result ≡ letter self byte }
    {
        self.more(100, b'a' - 1, b'a', b'z', byte)
            .unwrap_or(Line::spoilt())
    }

    // One digit more of a number.
    fn digit(self, byte: u8) -> Line
        ensures { result ≡ digit self byte }
    {
        self.more(10, b'0', b'0', b'9', byte)
            .unwrap_or(Line::spoilt())
    }
}

// Whether a field cannot end: it must not be empty, and there must be room for it.
fn cannot_end(line: Line, fields: &[u64]) -> bool
    ensures { result ≡ cannot_end (reading line fields.now) }
{
    line.bad || !line.begun || fields.len() <= line.count
}

// Ends a field: its value goes to its place.
fn close(line: Line, fields: &mut [u64]) -> Line
    ensures { reading result fields.new ≡ closed (reading line fields.old) }
{
    if cannot_end(line, fields) {
        return Line::spoilt();
    }
    let at = line.count;
    fields[at] = line.value;
    Line {
        count: at + 1,
        value: 0,
        begun: false,
        bad: false,
    }
}

// Reads one byte more: a tab ends the field, and the first field is the word.
fn feed(line: Line, byte: u8, fields: &mut [u64]) -> Line
    ensures { reading result fields.new ≡ fed (reading line fields.old) byte }
{
    if byte == TAB {
        return close(line, fields);
    }
    if line.count == 0 {
        return line.letter(byte);
    }
    line.digit(byte)
}

// Reads a part of a line, which may be any part.
pub fn read(line: Line, text: &[u8], fields: &mut [u64]) -> Line
    ensures { reading result fields.new ≡ read_on (reading line fields.old) text.now }
{
    let mut so_far = line;
    for &byte in text {
        so_far = feed(so_far, byte, fields);
    }
    so_far
}

// Ends a line: its last field goes to its place. Gives how many fields the line has, and `None` of a line in no form.
pub fn end(line: Line, fields: &mut [u64]) -> Option<usize>
    ensures { (result ≡ counted (closed (reading line fields.old)))
        × (fields.new ≡ (closed (reading line fields.old)).fields) }
{
    let ended = close(line, fields);
    if ended.bad {
        return None;
    }
    Some(ended.count)
}

// Whether nothing was read of a line, not even a tab.
pub fn is_empty(line: Line) -> bool
    ensures { result ≡ is_empty line }
{
    !line.bad && !line.begun && line.count == 0
}
