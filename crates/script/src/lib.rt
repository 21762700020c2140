// Scripts of commands: the lines of a script, the fields of a line, the numbers that fields are, and the set that numbers make.
#![tactic(auto)]

ghost use Rattle.std.specs.Prelude.{◌≡◌, ℕ, Bool, List};
ghost use Rattle.std.specs.Prelude.{Option};
ghost use Rattle.script.specs.Promised.{AreBytes, AreNumbers, AreRead, HasAbove, HasZero, IsField, IsHex, IsLineEnd, IsNumber, IsSame, IsSetOf};
ghost use Rattle.script.specs.Script.{hex_byte, numeral, past, taken};

use sets::Set;
use theory::ASSUMPTIONS;

// The place of a field's first byte, and the place after its last. No `Range`: a range is not copied.
#[derive(Clone, Copy)]
pub struct Span {
    pub from: usize,
    pub to: usize,
}

// What a field of a line may say: `reading` is how it is read.
trait FromField: Copy {
    ghost reading: { List ℕ → Option Self };

    // What the field says; none where it is bad.
    fn from_field(field: &[u8]) -> Option<Self>
        ensures { result ≡ reading field.now };
}

// A decimal number of at most 4294967295.
impl FromField for u32 {
    ghost reading = { numeral };

    fn from_field(field: &[u8]) -> Option<u32>
        ensures { IsNumber field.now result }
    {
        if field.is_empty() {
            return None;
        }
        let mut value = 0u32;
        for b in field {
            let digit = char::from(*b).to_digit(10)?;
            value = value.checked_mul(10)?.checked_add(digit)?;
        }
        Some(value)
    }
}

// A byte as two hex digits.
impl FromField for u8 {
    ghost reading = { hex_byte };

    fn from_field(field: &[u8]) -> Option<u8>
        ensures { IsHex field.now result }
    {
        let [high, low] = field else {
            return None;
        };
        let high = char::from(*high).to_digit(16)?;
        let low = char::from(*low).to_digit(16)?;
        Some((high * 16 + low) as u8)
    }
}

// The first place from `from` on whose byte does not pass, or the length. Over the places, since `from` may lie past the end.
fn past<F: Fn(u8) -> bool>(bytes: &[u8], from: usize, passes: F) -> usize
    requires { F.IsAlwaysCallable passes }
    ensures { (p : ℕ → Bool) → ((b : ℕ) (r : Bool) → F.post passes b r → r ≡ p b) → result ≡ past p bytes.now from }
{
    for i in from..bytes.len() {
        if !passes(bytes[i]) {
            return i;
        }
    }
    bytes.len()
}

// The end of the line from `from` on: the place of the first newline, or the length of the script.
pub fn line_end(script: &[u8], from: usize) -> usize
    ensures { IsLineEnd script.now from result }
{
    past(script, from, |b| b != b'\n')
}

// The first field from `from` on; both places are the length of the line where there is none.
pub fn field(line: &[u8], from: usize) -> Span
    ensures { IsField line.now from result }
{
    let start = past(line, from, |b| b == b' ');
    let end = past(line, start, |b| b != b' ');
    Span {
        from: start,
        to: end,
    }
}

// What all fields from `from` on say, into out: how many there are; none where one is bad or out has no room.
// A loop, and no `split`: where a field begins and ends is what `field` promises, and out is lent, with what it had left after the last.
fn read_all<T: FromField>(line: &[u8], from: usize, out: &mut [T]) -> Option<usize>
    ensures { AreRead T.reading line.now from out.old out.new result }
{
    let mut at = from;
    let mut count = 0;
    loop {
        let span = field(line, at);
        let start = span.from;
        let end = span.to;
        if start == end {
            return Some(count);
        }
        let said = T::from_field(&line[start..end])?;
        if count == out.len() {
            return None;
        }
        out[count] = said;
        count += 1;
        at = end;
    }
}

// The fields from `from` on as decimal numbers, into out; none where one is bad or out has no room.
// This and `bytes` are names of their own: the theorem OnceEach is about the contract of each.
pub fn numbers(line: &[u8], from: usize, out: &mut [u32]) -> Option<usize>
    ensures { AreNumbers line.now from out.old out.new result }
{
    read_all(line, from, out)
}

// The fields from `from` on as hex bytes, into out; none where one is bad or out has no room.
pub fn bytes(line: &[u8], from: usize, out: &mut [u8]) -> Option<usize>
    ensures { AreBytes line.now from out.old out.new result }
{
    read_all(line, from, out)
}

// Whether a field is a word: programs choose a line's command by it.
pub fn same(field: &[u8], word: &[u8]) -> bool
    ensures { IsSame field.now word.now result }
{
    slices::equal(field, word)
}

// Whether 0 is among the numbers.
pub fn has_zero(values: &[u32]) -> bool
    ensures { HasZero values.now result }
{
    slices::has(values, 0)
}

// Whether a number is above the most assumptions, and so above every A.
pub fn has_above(values: &[u32]) -> bool
    ensures { HasAbove values.now result }
{
    slices::over(values, ASSUMPTIONS)
}

// The set with assumption k; a number that no store has as an assumption is left out.
fn with(set: Set, k: u32) -> Set
    ensures { result ≡ taken set k }
{
    match k {
        1..=ASSUMPTIONS => sets::union(set, sets::only(k as u8)),
        _ => set,
    }
}

// The set of the assumptions among the numbers.
pub fn set_of(values: &[u32]) -> Set
    ensures { IsSetOf values.now result }
{
    values.iter().copied().fold(0, with)
}
