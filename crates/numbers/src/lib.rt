// The numbers of a case file in groups of seven bits, taken from its bytes one after another.
#![tactic(auto)]

ghost use Rattle.std.specs.Prelude.{◌≡◌, ◌≤◌, [], ◌∷◌};
ghost use Rattle.numbers.specs.Numbers.{AreNumbers, IsNumber, number_from, second_from, two_from};
ghost use Rattle.numbers.specs.Reader.{IsByte, Takes, outcome};

use replies::Reply;

// A number of the bytes, and the place after it.
#[derive(Clone, Copy)]
pub struct Number {
    pub value: u32,
    pub next: usize,
}

// Two numbers one after another; after a fault the second is the first again.
#[derive(Clone, Copy)]
pub struct Pair {
    pub first: Result<Number, Reply>,
    pub second: Result<Number, Reply>,
}

// The bytes of a file, and the place of the next number.
#[derive(Clone, Copy)]
pub struct Reader<'a> {
    pub bytes: &'a [u8],
    pub at: usize,
}

// The byte at a place.
fn byte(bytes: &[u8], at: usize) -> Result<u8, Reply>
    ensures { IsByte bytes.now at result }
{
    bytes.get(at).copied().ok_or(Reply::Ends)
}

// The number of a byte of 128 or more and the one after it.
#[tactic(auto, unfolding(crate::specs::Numbers::second_from))]
fn joined(low: u8, high: u8) -> Result<u32, Reply>
    requires { 128 ≤ low }
    ensures { result ≡ outcome (second_from low (high ∷ [])) }
{
    if high < 1 {
        return Err(Reply::Form);
    }
    if 128 <= high {
        return Err(Reply::Form);
    }
    Ok(u32::from(low) - 128 + 128 * u32::from(high))
}

// The number at a place of the bytes.
#[tactic(auto, using(crate::proofs::Numbers::cases))]
pub fn read(bytes: &[u8], at: usize) -> Result<Number, Reply>
    ensures { IsNumber bytes.now at result }
{
    let low = byte(bytes, at)?;
    if low < 128 {
        return Ok(Number {
            value: u32::from(low),
            next: at + 1,
        });
    }
    let high = byte(bytes, at + 1)?;
    let value = joined(low, high)?;
    Ok(Number {
        value,
        next: at + 2,
    })
}

// Two numbers one after another, from a place on.
pub fn two(bytes: &[u8], at: usize) -> Pair
    ensures { AreNumbers bytes.now at result }
{
    let first = read(bytes, at);
    let second = match first {
        Ok(number) => read(bytes, number.next),
        Err(fault) => Err(fault),
    };
    Pair { first, second }
}

impl<'a> Reader<'a> {
    // The next number; after a fault the reader stands where it stood.
    pub fn number(&mut self) -> Result<u32, Reply>
        ensures { Takes number_from self.old self.new result }
    {
        let number = read(self.bytes, self.at)?;
        self.at = number.next;
        Ok(number.value)
    }

    // The next two numbers; after a fault the reader stands where it stood.
    pub fn two(&mut self) -> Result<(u32, u32), Reply>
        ensures { Takes two_from self.old self.new result }
    {
        let pair = two(self.bytes, self.at);
        let first = pair.first?;
        let second = pair.second?;
        self.at = second.next;
        Ok((first.value, second.value))
    }
}
