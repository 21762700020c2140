// The call on a bare list of justifications, which needs no store.
ghost use Rattle.std.specs.Prelude.{◌≡◌};
ghost use Rattle.bare.specs.Bare.{ask_of};
ghost use Rattle.across.specs.Across.{barely_by, query_by};

use across::{Asked, Told};
use bare::Query;
use handed::Handed;

// What is asked of a bare list, any number of items.
#[unsafe(no_mangle)]
pub extern "C" fn door_bare(asked: Asked, list: &[Handed], out: &mut [u8]) -> Told
    ensures { (result ≡ barely_by (ask_of (query_by asked) list.now out.old).answer)
        × (out.new ≡ (ask_of (query_by asked) list.now out.old).bytes) }
{
    let answer = bare::ask(Query::from(asked), list, out);
    Told::from(answer)
}
