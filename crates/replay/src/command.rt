// The words that a line of a script may begin with.
ghost use Rattle.replay.specs.Commands.{among, command_of};
ghost use Rattle.std.specs.Prelude.{◌≡◌, map};

use telling::Fault;

#[derive(Clone, Copy)]
pub enum Command {
    Open,
    Load,
    Add,
    Withdraw,
    Rule,
    Forget,
    Season,
    Ask,
    Context,
    Member,
    Line,
    List,
    Write,
    Plain,
    PlainContext,
    Stages,
    BareAsk,
    BareContext,
    BareStages,
}

const WORDS: [(&[u8], Command); 19] = [
    (b"open", Command::Open),
    (b"load", Command::Load),
    (b"add", Command::Add),
    (b"withdraw", Command::Withdraw),
    (b"rule", Command::Rule),
    (b"forget", Command::Forget),
    (b"season", Command::Season),
    (b"ask", Command::Ask),
    (b"context", Command::Context),
    (b"member", Command::Member),
    (b"line", Command::Line),
    (b"list", Command::List),
    (b"write", Command::Write),
    (b"plain", Command::Plain),
    (b"plaincontext", Command::PlainContext),
    (b"stages", Command::Stages),
    (b"bareask", Command::BareAsk),
    (b"barecontext", Command::BareContext),
    (b"barestages", Command::BareStages),
];

// The command of a word among some; any other word makes the line bad.
fn find(mut words: &[(&[u8], Command)], word: &[u8]) -> Result<Command, Fault>
    ensures { result ≡ among (map (λ p. (p.0.now, p.1)) words.entry.now) word.now }
{
    while let [first, rest @ ..] = words {
        if script::same(word, first.0) {
            return Ok(first.1);
        }
        words = rest;
    }
    Err(Fault::Bad)
}

impl TryFrom<&[u8]> for Command {
    type Error = Fault;

    ghost try_from_gives = { λ word r. r ≡ command_of word.now };

    fn try_from(word: &[u8]) -> Result<Command, Fault> {
        find(&WORDS, word)
    }
}
