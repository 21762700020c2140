// The replies of document 01: done, already held, and each refusal.
#![tactic(auto)]

ghost use Rattle.replies.specs.Replies.{Numbered};

// Done and Already are replies too, and no Ok: theorem ReplyTable and the C interface number them with the others.
#[derive(Clone, Copy)]
pub enum Reply {
    Done,
    Already,
    Shape,
    Counts,
    Number,
    Falsity,
    Supports,
    Full,
    Label(u8),
    Nogoods,
    Ends,
    Form,
    After,
    Long,
    Short,
    Place,
    Itself,
    Unheld,
}

// The number of a reply; asked for by this name, and not by From, since a reply is no number until it is printed.
pub fn number(reply: Reply) -> u8
    ensures { Numbered reply result }
{
    match reply {
        Reply::Done => 0,
        Reply::Already => 1,
        Reply::Shape => 2,
        Reply::Counts => 3,
        Reply::Number => 4,
        Reply::Falsity => 5,
        Reply::Supports => 6,
        Reply::Full => 7,
        Reply::Label(_) => 8,
        Reply::Nogoods => 9,
        Reply::Ends => 11,
        Reply::Form => 12,
        Reply::After => 13,
        Reply::Long => 14,
        Reply::Short => 15,
        Reply::Place => 16,
        Reply::Itself => 17,
        Reply::Unheld => 18,
    }
}
