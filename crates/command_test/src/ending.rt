//! How the command ends.

ghost use Rattle.std.specs.Prelude.{◌≡◌};
ghost use Rattle.command_io.specs.Endings.{HasNoLine};
ghost use Rattle.ports.specs.Writing.{GotLine};
ghost use Rattle.command_test.specs.Endings.{Says, status_of, tests_line};

use command_io::sexp_config::ConfigWhy;
use command_io::{Ending, Status, put_line, report};
use itoa::Buffer;
use ports::Sink;

/// How the command ended, with the values that its line shows.
#[derive(Clone, Copy)]
pub(crate) enum TestsEnding<'a> {
    /// One that other commands have too. `Finished` is that all tests were run and passed.
    Shared(Ending<'a>),
    /// All tests were run, and one did not pass.
    Differed,
    /// The text of the tests is refused, for this cause at the place.
    TestsRefused { place: usize, why: ConfigWhy },
}

/// Writes the line of the ending, and gives the status. It takes no memory.
pub(crate) fn report_ending<E: Sink>(ending: TestsEnding, err: &mut E) -> Status
    ensures status { result ≡ status_of ending.entry }
    ensures says { Says ending.entry (E.report err.old) (E.report err.new) }
    ensures no_line { HasNoLine result → err.new ≡ err.old }
{
    match ending {
        TestsEnding::Shared(shared) => report(shared, err),
        TestsEnding::Differed => Status::Verdict,
        TestsEnding::TestsRefused { place, why } => {
            report_tests(place, why, err);
            Status::Tests
        }
    }
}

fn report_tests<E: Sink>(place: usize, why: ConfigWhy, err: &mut E)
    ensures { GotLine (E.report err.old) (tests_line place why) (E.report err.new) }
{
    let mut digits = Buffer::new();
    let place = digits.format(place);
    put_line(
        err,
        &["riemann: tests refused at ", place, ": ", why.name(), "\n"],
    );
}
