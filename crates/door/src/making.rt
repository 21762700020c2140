// The calls that make a store.
ghost use Rattle.std.specs.Prelude.{◌≡◌};
ghost use Rattle.casefile.specs.Load.{load_of};
ghost use Rattle.season.specs.Season.{add_all_of, bytes_after};
ghost use Rattle.store.specs.Calls.{add_of, open_of, withdraw_of};
ghost use Rattle.across.specs.Across.{loaded_by, made_by};

use across::Kept;
use handed::Handed;
use store::Store;

// A store that holds nothing.
#[unsafe(no_mangle)]
pub extern "C" fn door_open(assumptions: u32, claims: u32) -> Kept
    ensures { result ≡ made_by (open_of assumptions claims) }
{
    Kept::from(Store::open(assumptions, claims))
}

// The store of a case file.
#[unsafe(no_mangle)]
pub extern "C" fn door_load(bytes: &[u8]) -> Kept
    ensures { result ≡ loaded_by (load_of bytes.now) }
{
    Kept::from(casefile::load(bytes))
}

// The store with one justification more.
#[unsafe(no_mangle)]
pub extern "C" fn door_add(store: Store, consequent: u32, supports: &[u32]) -> Kept
    ensures { result ≡ made_by (add_of store consequent supports.now) }
{
    Kept::from(store.add(consequent, supports))
}

// The store without one justification that it holds.
#[unsafe(no_mangle)]
pub extern "C" fn door_withdraw(store: Store, consequent: u32, supports: &[u32]) -> Kept
    ensures { result ≡ made_by (withdraw_of store consequent supports.now) }
{
    Kept::from(store.withdraw(consequent, supports))
}

// The store with the justifications of a list, each refused one passed over, and a reply byte for each.
#[unsafe(no_mangle)]
pub extern "C" fn door_add_all(store: Store, list: &[Handed], out: &mut [u8]) -> Kept
    ensures { (result ≡ made_by (add_all_of store list.now out.old))
        × (out.new ≡ bytes_after store list.now out.old) }
{
    Kept::from(season::add_all(store, list, out))
}
