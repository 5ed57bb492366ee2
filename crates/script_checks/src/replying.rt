// What the tests judge replies by.
ghost use Rattle.std.specs.Prelude.{◌≡◌};
ghost use Rattle.replies.specs.Replied.{replied};

use calls::Answer;
use replies::{Reply, reply_to};
use scripts::Line;

// The reply to a line that has an answer.
pub(crate) fn reply_by(line: Line, answer: Answer) -> Reply
    ensures { result ≡ replied line (Some answer) }
{
    reply_to(line, Some(answer))
}
