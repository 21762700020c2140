// Case files: what a file spells, and what is held of it.
#![tactic(auto)]

ghost use Rattle.std.specs.Prelude.{true, ◌≡◌, ◌+◌, ◌<◌, ◌≤◌};
ghost use Rattle.theory.specs.Limits.{limits};
ghost use Rattle.rules.specs.Held.{fitting, held_of, held_right, meaning, said_by, top};
ghost use Rattle.casefile.specs.Case.{Parses, joined};
ghost use Rattle.casefile.specs.Load.{Loads};
ghost use Rattle.casefile.specs.Steps.{records_of};
ghost use Rattle.numbers.specs.Reader.{left};

use items::Counts;
use numbers::Reader;
use replies::Reply;
use rules::{Entry, Held};
use store::Store;

// What a file says: the announced count of its records, and all its justifications held.
#[derive(Clone, Copy)]
pub struct Parsed {
    pub records: u32,
    pub held: Held,
}

// What a file is refused with, and the record that has the fault.
#[derive(Clone, Copy)]
struct Fault {
    reply: Reply,
    record: u32,
}

// What loading answers: the reply, the record, and the store. No Result: `Refusals` speaks of the store that a refusal hands back.
#[derive(Clone, Copy)]
pub struct Loaded {
    pub reply: Reply,
    pub record: u32,
    pub store: Store,
}

// The justification among those held, once.
fn with(held: Held, entry: Entry) -> Held
    requires { (held_right held ≡ true) × (held.count < limits.held) × (fitting (top held) entry ≡ true) }
    ensures { result ≡ held_of held.assumptions held.claims (joined (meaning entry) (said_by held)) }
{
    if holding::holds(held, entry) {
        return held;
    }
    holding::insert(held, entry)
}

// The records that a header announces, and nothing after them.
fn records(mut reader: Reader, counts: Counts) -> Result<Held, Fault>
    requires { (counts.assumptions + counts.claims ≤ limits.numbers) × (counts.records ≤ limits.held) }
    ensures { result ≡ records_of counts.assumptions counts.claims counts.records (left reader.entry) }
{
    let top = counts.assumptions + counts.claims;
    let mut held = Held::nothing(counts.assumptions, counts.claims);
    for done in 0..counts.records {
        let record = done + 1;
        let entry = items::record(&mut reader, top).map_err(|reply| Fault { reply, record })?;
        held = with(held, entry);
    }
    if reader.at < reader.bytes.len() {
        return Err(Fault {
            reply: Reply::After,
            record: counts.records,
        });
    }
    Ok(held)
}

// What a case file says.
fn parse(bytes: &[u8]) -> Result<Parsed, Fault>
    ensures { Parses bytes.now result }
{
    let mut reader = Reader { bytes, at: 0 };
    let counts = items::header(&mut reader).map_err(|reply| Fault { reply, record: 0 })?;
    let held = records(reader, counts)?;
    Ok(Parsed {
        records: counts.records,
        held,
    })
}

// Loads a case file: the store of its whole set, judged once; or the refusal and its record.
pub fn load(bytes: &[u8]) -> Loaded
    ensures { Loads bytes.now result }
{
    match parse(bytes) {
        Ok(parsed) => {
            let told = store::judged(parsed.held);
            Loaded {
                reply: told.reply,
                record: parsed.records,
                store: told.store,
            }
        }
        Err(fault) => Loaded {
            reply: fault.reply,
            record: fault.record,
            store: Store::open(0, 0).store,
        },
    }
}
