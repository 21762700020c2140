// What goes across the door to programs in C and Rust: replies as numbers, the store by value, and what is asked of a bare list by its number.
#![tactic(auto)]

ghost use Rattle.std.specs.Prelude.{◌≡◌};
ghost use Rattle.replies.specs.Replies.{number_of};
ghost use Rattle.across.specs.Across.{barely_by, found_by, kept_by, loaded_by, made_by, named_or0, plainly_by, query_by, reasoned_by, wrote_by};

use asking::Answer;
use bare::{Query, What};
use casefile::Loaded;
use plain::Plain;
use replies::Reply;
use sets::Set;
use store::{Outcome, Store};

// What a call that makes a store answers: the reply's number, the number that reply 8 names, the record of a file, and the store; 0 where there is none.
#[repr(C)]
#[derive(Clone, Copy)]
pub struct Kept {
    pub reply: u32,
    pub named: u32,
    pub record: u32,
    pub store: Store,
}

// What a question answers: the reply's number; 2 for inconsistent, 1 for supported, 0 for unsupported; the set that it names, 0 where it names none.
#[repr(C)]
#[derive(Clone, Copy)]
pub struct Reasoned {
    pub reply: u32,
    pub answer: u32,
    pub reason: u32,
}

// The reply's number, and what goes with reply 0: a set, or the length of a text.
#[repr(C)]
#[derive(Clone, Copy)]
pub struct Told {
    pub reply: u32,
    pub value: usize,
}

// What is asked of a list, in numbers: what is 0 for the word of a number, 1 for the context, and 2 or more for the stages; the number counts with 0 alone.
#[repr(C)]
#[derive(Clone, Copy)]
pub struct Asked {
    pub assumptions: u32,
    pub claims: u32,
    pub what: u32,
    pub number: u32,
    pub set: u32,
}

// The number of a reply, as it crosses.
pub fn number(reply: Reply) -> u32
    ensures { result ≡ number_of reply }
{
    u32::from(replies::number(reply))
}

// The number that a reply names, or 0.
fn named(reply: Reply) -> u32
    ensures { result ≡ named_or0 reply }
{
    if let Reply::Label(n) = reply {
        return u32::from(n);
    }
    0
}

// A reply, a record and a store.
fn keep(reply: Reply, at: u32, store: Store) -> Kept
    ensures { result ≡ kept_by reply at store }
{
    Kept {
        reply: number(reply),
        named: named(reply),
        record: at,
        store,
    }
}

// Of a call that reads no file.
impl From<Outcome> for Kept {
    ghost from_gives = { λ out kept. kept ≡ made_by out };

    fn from(out: Outcome) -> Kept {
        keep(out.reply, 0, out.store)
    }
}

// Of a file.
impl From<Loaded> for Kept {
    ghost from_gives = { λ out kept. kept ≡ loaded_by out };

    fn from(out: Loaded) -> Kept {
        keep(out.reply, out.record, out.store)
    }
}

// The word with its reason.
impl From<Result<Answer, Reply>> for Reasoned {
    ghost from_gives = { λ answer told. told ≡ reasoned_by answer };

    fn from(answer: Result<Answer, Reply>) -> Reasoned {
        match answer {
            Ok(Answer::Inconsistent(nogood)) => Reasoned {
                reply: 0,
                answer: 2,
                reason: nogood,
            },
            Ok(Answer::Supported(member)) => Reasoned {
                reply: 0,
                answer: 1,
                reason: member,
            },
            Ok(Answer::Unsupported) => Reasoned {
                reply: 0,
                answer: 0,
                reason: 0,
            },
            Err(reply) => Reasoned {
                reply: number(reply),
                answer: 0,
                reason: 0,
            },
        }
    }
}

impl Told {
    // A refusal, which has no value.
    fn refused(reply: Reply) -> Told
        ensures { result ≡ wrote_by (Err reply) }
    {
        Told {
            reply: number(reply),
            value: 0,
        }
    }
}

// The word without its reason: what its byte in a context is.
impl From<Result<Plain, Reply>> for Told {
    ghost from_gives = { λ word told. told ≡ plainly_by word };

    fn from(word: Result<Plain, Reply>) -> Told {
        match word {
            Ok(Plain::Inconsistent) => Told { reply: 0, value: 2 },
            Ok(Plain::Supported) => Told { reply: 0, value: 1 },
            Ok(Plain::Unsupported) => Told { reply: 0, value: 0 },
            Err(reply) => Told::refused(reply),
        }
    }
}

// A member, or the refusal.
impl From<Result<Set, Reply>> for Told {
    ghost from_gives = { λ member told. told ≡ found_by member };

    fn from(member: Result<Set, Reply>) -> Told {
        match member {
            Ok(e) => Told {
                reply: 0,
                value: e as usize,
            },
            Err(reply) => Told::refused(reply),
        }
    }
}

// The length of a text, or the refusal.
impl From<Result<usize, Reply>> for Told {
    ghost from_gives = { λ answer told. told ≡ wrote_by answer };

    fn from(answer: Result<usize, Reply>) -> Told {
        match answer {
            Ok(n) => Told { reply: 0, value: n },
            Err(reply) => Told::refused(reply),
        }
    }
}

// The answer of a bare list, as the call of a store gives it.
impl From<Result<bare::Told, Reply>> for Told {
    ghost from_gives = { λ answer told. told ≡ barely_by answer };

    fn from(answer: Result<bare::Told, Reply>) -> Told {
        match answer {
            Ok(bare::Told::Word(word)) => Told::from(Ok(word)),
            Ok(bare::Told::Filled) => Told { reply: 0, value: 0 },
            Ok(bare::Told::Lines(length)) => Told {
                reply: 0,
                value: length,
            },
            Err(reply) => Told::refused(reply),
        }
    }
}

// What is asked of a bare list, as the call takes it.
impl From<Asked> for Query {
    ghost from_gives = { λ asked query. query ≡ query_by asked };

    fn from(asked: Asked) -> Query {
        let what = match asked.what {
            0 => What::Number(asked.number),
            1 => What::Context,
            _ => What::Stages,
        };
        Query {
            assumptions: asked.assumptions,
            claims: asked.claims,
            what,
            set: asked.set,
        }
    }
}
