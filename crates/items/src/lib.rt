// The header and the records of a case file, each where a reader stands.
#![tactic(auto)]

ghost use Rattle.std.specs.Prelude.{◌≡◌, ◌≤◌, length};
ghost use Rattle.items.specs.Items.{numbers_from};
ghost use Rattle.items.specs.Steps.{counts_from, entry_from, filled, within_of};
ghost use Rattle.numbers.specs.Reader.{Takes};
ghost use Rattle.theory.specs.Limits.{limits};

use numbers::Reader;
use replies::Reply;
use rules::Entry;
use theory::{ASSUMPTIONS, CLAIMS, HELD, SUPPORTS};

// A header's counts of assumptions, claims and records.
#[derive(Clone, Copy)]
pub struct Counts {
    pub assumptions: u8,
    pub claims: u8,
    pub records: u32,
}

// The header's counts, where they are within the limits.
#[tactic(auto, unfolding(crate::specs::Steps::within_of))]
fn within(assumptions: u32, claims: u32, records: u32) -> Result<Counts, Reply>
    ensures { result ≡ within_of assumptions claims records }
{
    if ASSUMPTIONS < assumptions {
        return Err(Reply::Counts);
    }
    if CLAIMS < claims {
        return Err(Reply::Counts);
    }
    if HELD < records as usize {
        return Err(Reply::Full);
    }
    Ok(Counts {
        assumptions: assumptions as u8,
        claims: claims as u8,
        records,
    })
}

// The header; after a fault the reader stands where it stood.
pub fn header(reader: &mut Reader) -> Result<Counts, Reply>
    ensures { Takes counts_from reader.old reader.new result }
{
    let mut ahead = *reader;
    let (assumptions, claims) = ahead.two()?;
    let records = ahead.number()?;
    let counts = within(assumptions, claims, records)?;
    *reader = ahead;
    Ok(counts)
}

// A support for each place; after a fault the reader stands where it stood.
fn supports(reader: &mut Reader, places: &mut [u32]) -> Result<(), Reply>
    ensures { Takes (numbers_from (length places.old)) reader.old reader.new (filled result places.new) }
{
    let mut ahead = *reader;
    for place in places {
        *place = ahead.number()?;
    }
    *reader = ahead;
    Ok(())
}

// The record that comes next, top being the highest number; after a fault the reader stands where it stood.
pub fn record(reader: &mut Reader, top: u8) -> Result<Entry, Reply>
    requires { top ≤ limits.numbers }
    ensures { Takes (entry_from top) reader.old reader.new result }
{
    let mut ahead = *reader;
    let (consequent, count) = ahead.two()?;
    if SUPPORTS < count as usize {
        return Err(Reply::Supports);
    }
    let mut numbers = [0; SUPPORTS];
    let list = &mut numbers[..count as usize];
    supports(&mut ahead, list)?;
    rules::fault(top, consequent, list)?;
    let entry = rules::canonical(top, consequent, list);
    *reader = ahead;
    Ok(entry)
}
