//! How a command of a client ends.

ghost use Rattle.std.specs.Prelude.{◌≡◌};
ghost use Rattle.command_client.specs.Endings.{Says, ending_of, lost_line, refused_line, status_of, unasked_line};
ghost use Rattle.command_io.specs.Endings.{HasNoLine};
ghost use Rattle.ports.specs.Writing.{GotLine};

use client_run::Outcome;
use command_io::{Ending, Status, put_line, report};
use itoa::Buffer;
use ports::Sink;
use riemann_msg::MsgWhy;

/// How the command ended, with the values that its line shows.
#[derive(Clone, Copy)]
pub(crate) enum ClientEnding<'a> {
    /// One that other commands have too. `Finished` is that the exchange is whole.
    Shared(Ending<'a>),
    /// The exchange was lost, with so many replies to so many requests.
    Lost {
        replies: usize,
        requests: usize,
    },
    /// The request of this number was not sent whole before its reply came.
    Unasked {
        number: u64,
    },
    /// The reply of this number is not a message, for this cause at the place.
    Refused {
        number: u64,
        place: usize,
        why: MsgWhy,
    },
}

/// How the command ends whose exchange had this outcome, with so many replies to so many requests.
pub(crate) fn ending_of<'a>(outcome: Outcome, replies: usize, requests: usize) -> ClientEnding<'a>
    ensures { result ≡ ending_of outcome replies requests }
{
    match outcome {
        Outcome::Whole => ClientEnding::Shared(Ending::Finished),
        Outcome::Unasked { number } => ClientEnding::Unasked { number },
        Outcome::Refused { number, place, why } => ClientEnding::Refused { number, place, why },
        Outcome::Lost => ClientEnding::Lost { replies, requests },
    }
}

/// Writes the line of the ending, and gives the status. It takes no memory.
pub(crate) fn report_ending<E: Sink>(ending: ClientEnding, err: &mut E) -> Status
    ensures status { result ≡ status_of ending.entry }
    ensures says { Says ending.entry (E.report err.old) (E.report err.new) }
    ensures no_line { HasNoLine result → err.new ≡ err.old }
{
    match ending {
        ClientEnding::Shared(shared) => report(shared, err),
        ClientEnding::Lost { replies, requests } => {
            report_lost(replies, requests, err);
            Status::Unanswered
        }
        ClientEnding::Unasked { number } => {
            report_unasked(number, err);
            Status::BadReply
        }
        ClientEnding::Refused { number, place, why } => {
            report_refused(number, place, why, err);
            Status::BadReply
        }
    }
}

fn report_lost<E: Sink>(replies: usize, requests: usize, err: &mut E)
    ensures { GotLine (E.report err.old) (lost_line replies requests) (E.report err.new) }
{
    let mut replies_digits = Buffer::new();
    let mut requests_digits = Buffer::new();
    let replies = replies_digits.format(replies);
    let requests = requests_digits.format(requests);
    put_line(err, &["riemann: ", replies, " of ", requests, " replies\n"]);
}

fn report_unasked<E: Sink>(number: u64, err: &mut E)
    ensures { GotLine (E.report err.old) (unasked_line number) (E.report err.new) }
{
    let mut digits = Buffer::new();
    let number = digits.format(number);
    put_line(err, &["riemann: reply ", number, " refused: unasked\n"]);
}

fn report_refused<E: Sink>(number: u64, place: usize, why: MsgWhy, err: &mut E)
    ensures { GotLine (E.report err.old) (refused_line number place why) (E.report err.new) }
{
    let mut number_digits = Buffer::new();
    let mut place_digits = Buffer::new();
    let number = number_digits.format(number);
    let place = place_digits.format(place);
    put_line(
        err,
        &[
            "riemann: reply ",
            number,
            " refused at ",
            place,
            ": ",
            why.name(),
            "\n",
        ],
    );
}
