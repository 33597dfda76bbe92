// The two numbers of a reply line.
ghost use Rattle.std.specs.Prelude.{◌≡◌};
ghost use Rattle.admin_wire.specs.Lines.{http_of, refusal_http, status_of};

use crate::line::{Line, Refusal};
use feed_base::Status;

/// The status that a program ends with after this line, where the line is one of a program's.
pub fn line_status(line: &Line) -> Option<Status>
    ensures { result ≡ status_of line.now }
{
    let number = match line {
        Line::Left(..) | Line::Stopping => return None,
        Line::Differs(..) | Line::Refused(_) => 3,
        Line::Fault(_) => 4,
        Line::FaultInput => 5,
        Line::Damaged(..) => 6,
        Line::TooLong => 7,
        Line::Memory => 8,
        _ => 0,
    };
    Some(Status { number })
}

fn refusal_status(why: &Refusal) -> Option<u16>
    ensures { result ≡ refusal_http why.now }
{
    match why {
        Refusal::Exists { .. } | Refusal::Absent { .. } | Refusal::Already { .. } => Some(409),
        Refusal::Twice(_) | Refusal::IdFull(_) | Refusal::Full(_) | Refusal::ClockEnd => Some(409),
        Refusal::Empty | Refusal::TooMany(_) | Refusal::Body(_) => Some(400),
        Refusal::Id(_) | Refusal::Version(_) | Refusal::Meta { .. } => Some(400),
        Refusal::Missing => Some(404),
        _ => None,
    }
}

/// The number of HTTP's status that goes with this line, where the line is one of a server's.
pub fn line_http(line: &Line) -> Option<u16>
    ensures { result ≡ http_of line.now }
{
    match line {
        Line::Committed { .. } => Some(201),
        Line::Done(..) | Line::Idle(..) | Line::Joined(..) => Some(200),
        Line::Cursor(..) | Line::Same(..) | Line::Stopping => Some(200),
        Line::Left(..) => Some(409),
        Line::Refused(why) => refusal_status(why),
        Line::Damaged(..) => Some(500),
        Line::Fault(_) => Some(503),
        Line::Memory => Some(507),
        _ => None,
    }
}
