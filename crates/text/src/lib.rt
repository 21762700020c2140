// Texts into lent bytes, one after the other: numbers, words, sets, and the lines made of them.
#![tactic(auto)]

ghost use Rattle.std.specs.Prelude.{◌≡◌, ◌∷◌, []};
ghost use Rattle.theory.specs.Limits.{limits};
ghost use Rattle.text.specs.Texts.{braced, digits, field, heading, refusal, row, spaced};

use sets::{Set, WIDTH};

// Lent bytes, and how many of them are written from the first on. That there is room is a clause of each method, since each asks it of a text of its own.
#[derive(Drop)]
pub struct Writer<'a> {
    bytes: &'a mut [u8],
    pub written: usize,
}

#[tactic(auto, using(crate::proofs::Added::writes), unfolding(crate::specs::Texts::word, crate::specs::Texts::row, crate::specs::Texts::heading, crate::specs::Texts::refusal))]
impl<'a> Writer<'a> {
    ghost use Rattle.text.specs.Writer.{Room, added, begun, text_of};

    // Nothing is written yet.
    pub fn new(bytes: &'a mut [u8]) -> Writer<'a>
        ensures { result ≡ begun bytes.entry }
    {
        Writer { bytes, written: 0 }
    }

    // What is written.
    #[tactic(auto, unfolding(crate::specs::Writer::text_of))]
    pub fn text(&self) -> &[u8]
        requires { Room [] self.now }
        ensures { result.now ≡ text_of self.now }
    {
        &self.bytes[..self.written]
    }

    // One byte.
    pub fn byte(&mut self, x: u8)
        requires { Room (x ∷ []) self.old }
        ensures { self.new ≡ added (x ∷ []) self.old }
    {
        self.bytes[self.written] = x;
        self.written += 1;
    }

    // A word. Public for `copy_one` of promises, which speaks of it.
    #[tactic(auto, using(std::proofs::lemmas::Grind::common_steps), unfolding(crate::specs::Writer::added, crate::specs::Writer::placed))]
    pub fn word(&mut self, word: &[u8])
        requires { Room word.now self.old }
        ensures { self.new ≡ added word.now self.old }
    {
        let end = self.written + word.len();
        self.bytes[self.written..end].copy_from_slice(word);
        self.written = end;
    }

    // The decimal digits of n. Not by `write!`: its answer may be an error, and here is room.
    #[tactic(auto, using(crate::proofs::Added::writes, crate::proofs::Digits::steps))]
    pub fn number(&mut self, n: u32)
        requires { Room (digits n) self.old }
        ensures { self.new ≡ added (digits n) self.old }
    {
        if n < 10 {
            return self.byte(b'0' + n as u8);
        }
        self.number(n / 10);
        self.byte(b'0' + (n % 10) as u8);
    }

    // A number after one space.
    #[tactic(auto, using(crate::proofs::Added::writes), unfolding(crate::specs::Texts::word, crate::specs::Texts::field))]
    pub fn field(&mut self, n: u32)
        requires { Room (field n) self.old }
        ensures { self.new ≡ added (field n) self.old }
    {
        self.byte(b' ');
        self.number(n);
    }

    // The set e in braces.
    #[tactic(auto, using(crate::proofs::Added::writes, crate::proofs::Rests::rests))]
    pub fn braces(&mut self, e: Set)
        requires { Room (braced limits.assumptions e) self.old }
        ensures { self.new ≡ added (braced limits.assumptions e) self.old }
    {
        self.byte(b'{');
        let mut later = false;
        for k in 1..=WIDTH {
            if sets::has(e, k) {
                if later {
                    self.byte(b',');
                }
                self.number(k.into());
                later = true;
            }
        }
        self.byte(b'}');
    }

    // Each set of the list after one space.
    #[tactic(auto, using(crate::proofs::Added::writes, crate::proofs::Rests::lists))]
    fn members(&mut self, list: &[Set])
        requires { Room (spaced limits.assumptions list.now) self.old }
        ensures { self.new ≡ added (spaced limits.assumptions list.now) self.old }
    {
        for set in list {
            self.byte(b' ');
            self.braces(*set);
        }
    }

    // The line of n.
    pub fn line(&mut self, n: u32, words: &[u8], list: &[Set])
        requires { Room (row limits.assumptions n words.now list.now) self.old }
        ensures { self.new ≡ added (row limits.assumptions n words.now list.now) self.old }
    {
        self.number(n);
        self.word(words);
        self.members(list);
        self.byte(b'\n');
    }

    // Line one: the counts of assumptions, claims and justifications held, and the depth.
    pub fn head(&mut self, a: u32, m: u32, held: u32, depth: u32)
        requires { Room (heading a m held depth) self.old }
        ensures { self.new ≡ added (heading a m held depth) self.old }
    {
        self.word(b"case");
        self.field(a);
        self.field(m);
        self.field(held);
        self.field(depth);
        self.byte(b'\n');
    }

    // The line of a refusal: the reply's number and the record.
    pub fn refused(&mut self, number: u32, record: u32)
        requires { Room (refusal number «record») self.old }
        ensures { self.new ≡ added (refusal number «record») self.old }
    {
        self.word(b"refused");
        self.field(number);
        self.field(record);
        self.byte(b'\n');
    }
}
