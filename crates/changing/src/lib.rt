// What is held with one justification more, or one less; or the refusal.
#![tactic(auto)]

ghost use Rattle.std.specs.Prelude.{true, ◌≡◌, ◌+◌, ◌≤◌};
ghost use Rattle.theory.specs.Limits.{limits};
ghost use Rattle.rules.specs.Held.{held_right};
ghost use Rattle.changing.specs.Changing.{less_of, more_of, placed_of};

use replies::Reply;
use rules::{Entry, Held};
use theory::HELD;

// The item in its place; refused where it has a fault.
fn placed(top: u8, consequent: u32, supports: &[u32]) -> Result<Entry, Reply>
    requires { top ≤ limits.numbers }
    ensures { result ≡ placed_of top consequent supports.now }
{
    rules::fault(top, consequent, supports)?;
    Ok(rules::canonical(top, consequent, supports))
}

// One more: refused where the item has a fault, where it is held already, where no place is left.
pub fn more(held: Held, consequent: u32, supports: &[u32]) -> Result<Held, Reply>
    requires { (held_right held ≡ true) × (held.assumptions + held.claims ≤ limits.numbers) }
    ensures { result ≡ more_of held consequent supports.now }
{
    let entry = placed(held.assumptions + held.claims, consequent, supports)?;
    if holding::holds(held, entry) {
        return Err(Reply::Already);
    }
    if HELD <= held.count {
        return Err(Reply::Full);
    }
    Ok(holding::insert(held, entry))
}

// One less: refused where the item has a fault, where it is not held.
pub fn less(held: Held, consequent: u32, supports: &[u32]) -> Result<Held, Reply>
    requires { (held_right held ≡ true) × (held.assumptions + held.claims ≤ limits.numbers) }
    ensures { result ≡ less_of held consequent supports.now }
{
    let entry = placed(held.assumptions + held.claims, consequent, supports)?;
    if !holding::holds(held, entry) {
        return Err(Reply::Unheld);
    }
    Ok(holding::remove(held, entry))
}
