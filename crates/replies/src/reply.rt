// What a line is replied.
ghost use Rattle.std.specs.Prelude.{◌≡◌};
ghost use Rattle.replies.specs.Replied.{name_of, unopened, unanswered, opened_by, answered, replied};

use crate::reason::Reason;
use calls::{Answer, Decision, Reported, Status};
use model::Settings;
use scripts::Line;

// The name of a line, which begins its reply too.
#[derive(Clone, Copy, Debug, PartialEq, Eq)]
pub enum Name {
    Curve,
    Stair,
    List,
    Pattern,
    Open,
    Choose,
    Trial,
    Report,
    Withdraw,
    Show,
    Status,
}

// What is told of a line: a refusal is one of the things told, and no `Err`.
#[derive(Clone, Copy)]
pub enum Reply {
    // It was accepted, and there is no more to tell.
    Accepted(Name),
    // It was refused.
    Refused(Name, Reason),
    // It is a call, and no run is open.
    Closed(Name),
    // A run was opened: its figures at the beginning.
    Opened(Status),
    // A choice was made, with the number of its ticket.
    Chosen { ticket: u64, decision: Decision },
    // A report was accepted.
    Charged(Reported),
    // The figures of the run.
    Told(Status),
}

// The name of a line.
fn name_of(line: Line) -> Name
    ensures { result ≡ name_of line }
{
    match line {
        Line::Curve => Name::Curve,
        Line::Stair(_) => Name::Stair,
        Line::List(_) => Name::List,
        Line::Pattern(_) => Name::Pattern,
        Line::Open(_) => Name::Open,
        Line::Choose { .. } => Name::Choose,
        Line::Trial { .. } => Name::Trial,
        Line::Report { .. } => Name::Report,
        Line::Withdraw { .. } => Name::Withdraw,
        Line::Show => Name::Show,
        Line::Status => Name::Status,
    }
}

// What an opening is told that has no answer: the first question that is answered by no.
fn unopened(settings: Settings) -> Reply
    ensures { result ≡ unopened settings }
{
    match settings.accept() {
        Ok(_) => Reply::Closed(Name::Open),
        Err(refusal) => Reply::Refused(Name::Open, refusal.into()),
    }
}

// What a line is told that has no answer.
fn unanswered(line: Line) -> Reply
    ensures { result ≡ unanswered line }
{
    match line {
        Line::Curve => Reply::Accepted(Name::Curve),
        Line::Stair(Ok(_)) => Reply::Accepted(Name::Stair),
        Line::List(Ok(_)) => Reply::Accepted(Name::List),
        Line::Pattern(Ok(_)) => Reply::Accepted(Name::Pattern),
        Line::Stair(Err(refusal)) => Reply::Refused(Name::Stair, refusal.into()),
        Line::List(Err(refusal)) => Reply::Refused(Name::List, refusal.into()),
        Line::Pattern(Err(refusal)) => Reply::Refused(Name::Pattern, refusal.into()),
        Line::Open(settings) => unopened(settings),
        call => Reply::Closed(name_of(call)),
    }
}

// What an opening is told by the answer to its status.
fn opened_by(answer: Answer) -> Reply
    ensures { result ≡ opened_by answer }
{
    match answer {
        Answer::Told(status) => Reply::Opened(status),
        _ => Reply::Closed(Name::Open),
    }
}

// What a call of a name is told by its answer.
fn answered(name: Name, answer: Answer) -> Reply
    ensures { result ≡ answered name answer }
{
    match answer {
        Answer::Chosen { ticket, decision } => Reply::Chosen { ticket, decision },
        Answer::Tried | Answer::Withdrawn | Answer::Shown => Reply::Accepted(name),
        Answer::Charged(reported) => Reply::Charged(reported),
        Answer::Told(status) => Reply::Told(status),
        Answer::Refused(refusal) => Reply::Refused(name, refusal.into()),
    }
}

// What a line is told, by the answer to its call if it has one. A call without an answer found no open run, and an
// opening without one was refused.
pub fn reply_to(line: Line, answer: Option<Answer>) -> Reply
    ensures { result ≡ replied line answer }
{
    let Some(answer) = answer else {
        return unanswered(line);
    };
    match line {
        Line::Open(_) => opened_by(answer),
        call => answered(name_of(call), answer),
    }
}
