// What a call that writes into lent bytes answers, and the text into them.
#![tactic(auto)]

ghost use Rattle.lent.specs.Lent.{Leaves, fitted};

use replies::Reply;
use store::Store;

// The length of a text or why there is none, and the store that came in: a refusal hands it back too (theorem `Refusals`).
#[derive(Clone, Copy)]
pub struct Listed {
    pub answer: Result<usize, Reply>,
    pub store: Store,
}

// The text into the lent bytes, where they are long enough. No copy_from_slice: here it came to C's memmove, and the library needs memcpy and memset alone.
#[tactic(auto, using(crate::proofs::Fits::fitted_short))]
pub fn fit(text: &[u8], out: &mut [u8]) -> Result<usize, Reply>
    ensures { Leaves (fitted text.now out.old) result out.new }
{
    let length = text.len();
    if out.len() < length {
        return Err(Reply::Short);
    }
    for (i, byte) in text.iter().enumerate() {
        out[i] = *byte;
    }
    Ok(length)
}
