// The case file of a store, into lent bytes.
#![tactic(auto)]

ghost use Rattle.std.specs.Prelude.{true, ◌≡◌, ◌<◌, ◌≤◌};
ghost use Rattle.rules.specs.Held.{meaning};
ghost use Rattle.store.specs.Shape.{held_fits};
ghost use Rattle.lent.specs.Lent.{Leaves};
ghost use Rattle.text.specs.Writer.{Room, added};
ghost use Rattle.theory.specs.Limits.{limits};
ghost use Rattle.theory.specs.Lists.{each};
ghost use Rattle.writing.specs.Writing.{Writes, bytes_of, file_of, record_for, write_of};

use lent::Listed;
use replies::Reply;
use rules::{Entry, Held};
use store::Store;
use text::Writer;
use theory::{HELD, SUPPORTS};

// No file of a store of right shape is longer: 4 bytes before the records, and each record with all its supports, two bytes for the highest number.
pub const LONGEST: usize = 4 + HELD * (SUPPORTS + 3);

// The number n in its shortest form.
#[tactic(auto, using(text::proofs::Added::writes, crate::proofs::Turns::shortest))]
fn put_number(n: u32, out: &mut Writer)
    requires { (n < 16384) × Room (bytes_of n) out.old }
    ensures { out.new ≡ added (bytes_of n) out.old }
{
    if n < 128 {
        out.byte(n as u8);
        return;
    }
    out.byte(128 + (n % 128) as u8);
    out.byte((n / 128) as u8);
}

// Each number of the list.
#[tactic(auto, using(text::proofs::Added::writes, crate::proofs::Turns::numbers))]
fn put_numbers(list: &[u8], out: &mut Writer)
    requires { Room (each bytes_of list.now) out.old }
    ensures { out.new ≡ added (each bytes_of list.now) out.old }
{
    for n in list {
        put_number(*n as u32, out);
    }
}

// The record of what the place says.
#[tactic(auto, using(text::proofs::Added::writes, crate::proofs::Turns::entry_parts))]
fn put_entry(entry: &Entry, out: &mut Writer)
    requires { (entry.now.consequent ≤ limits.numbers) × (entry.now.count ≤ limits.supports) × Room (each bytes_of (record_for (meaning entry.now))) out.old }
    ensures { out.new ≡ added (each bytes_of (record_for (meaning entry.now))) out.old }
{
    let count = entry.count;
    put_number(entry.consequent as u32, out);
    put_number(count as u32, out);
    put_numbers(&entry.supports[..count as usize], out);
}

// The whole file.
#[tactic(auto, using(text::proofs::Added::writes, crate::proofs::Turns::records))]
fn put_held(held: &Held, out: &mut Writer)
    requires { (held_fits held.now ≡ true) × Room (file_of held.now) out.old }
    ensures { out.new ≡ added (file_of held.now) out.old }
{
    let count = held.count;
    put_number(held.assumptions as u32, out);
    put_number(held.claims as u32, out);
    put_number(count as u32, out);
    for entry in &held.entries[..count] {
        put_entry(entry, out);
    }
}

// The case file of the store, where its shape is right and there is room.
#[tactic(auto, using(text::proofs::Added::texts, crate::proofs::Turns::shape_fits, crate::proofs::Files::file_length), unfolding(crate::specs::Writing::write_of))]
fn written(store: &Store, out: &mut [u8]) -> Result<usize, Reply>
    ensures { Leaves (write_of store.now out.old) result out.new }
{
    if !store.shape() {
        return Err(Reply::Shape);
    }
    let mut file = [0u8; LONGEST];
    let mut writer = Writer::new(&mut file);
    put_held(&store.held, &mut writer);
    lent::fit(writer.text(), out)
}

// Writes the case file of the store.
#[tactic(auto, using(lent::proofs::Fits::hands))]
pub fn write(store: Store, out: &mut [u8]) -> Listed
    ensures { Writes store out.old result out.new }
{
    let answer = written(&store, out);
    Listed { answer, store }
}
