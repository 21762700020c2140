// The calls that read a store.
ghost use Rattle.std.specs.Prelude.{◌≡◌, length};
ghost use Rattle.asking.specs.Asking.{context_bytes, context_reply, member_of, question_of};
ghost use Rattle.plain.specs.Plainly.{plain_after, plain_of};
ghost use Rattle.replies.specs.Replies.{number_of};
ghost use Rattle.store.specs.Shape.{right_shape};
ghost use Rattle.across.specs.Across.{found_by, plainly_by, reasoned_by};

use across::{Reasoned, Told};
use store::Store;

// Whether the store has the right shape.
#[unsafe(no_mangle)]
pub extern "C" fn door_shape(store: Store) -> bool
    ensures { result ≡ right_shape store }
{
    store.shape()
}

// What the set e is to n, and why.
#[unsafe(no_mangle)]
pub extern "C" fn door_question(store: Store, n: u32, e: u32) -> Reasoned
    ensures { result ≡ reasoned_by (question_of store n e) }
{
    Reasoned::from(asking::question(store, n, e).answer)
}

// What the set e is to every number, a byte each.
#[unsafe(no_mangle)]
pub extern "C" fn door_context(store: Store, e: u32, out: &mut [u8]) -> u32
    ensures { (result ≡ number_of (context_reply store e (length out.old)))
        × (out.new ≡ context_bytes store e out.old) }
{
    across::number(asking::context(store, e, out).reply)
}

// The set at a place of n's label, or of the nogoods.
#[unsafe(no_mangle)]
pub extern "C" fn door_member(store: Store, n: u32, place: usize) -> Told
    ensures { result ≡ found_by (member_of store n place) }
{
    Told::from(asking::member(store, n, place).answer)
}

// What the set e is to n, without labels; no set is named.
#[unsafe(no_mangle)]
pub extern "C" fn door_plain_question(store: Store, n: u32, e: u32) -> Told
    ensures { result ≡ plainly_by (plain_of store n e) }
{
    Told::from(plain::question(store, n, e).answer)
}

// What the set e is to every number, a byte each, without labels.
#[unsafe(no_mangle)]
pub extern "C" fn door_plain_context(store: Store, e: u32, out: &mut [u8]) -> u32
    ensures { (result ≡ number_of (context_reply store e (length out.old)))
        × (out.new ≡ plain_after store e out.old) }
{
    across::number(plain::context(store, e, out).reply)
}
