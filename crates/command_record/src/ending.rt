//! How a command ends that keeps a journal.

ghost use Rattle.std.specs.Prelude.{◌≡◌};
ghost use Rattle.command_record.specs.Endings.{Says, ending_of_fault, ending_of_run, journal_line, status_of};
ghost use Rattle.command_setup.specs.command_io.Endings.{HasNoLine};
ghost use Rattle.ports.specs.Writing.{GotLine};

use command_setup::command_io::{Ending, Status, put_line, report};
use command_setup::conn_core::Hub;
use itoa::Buffer;
use journal_run::JournalRunFault;
use ports::Sink;
use turn_journal::JournalFault;

const DISK_LINE: &str = "riemann: disk failed\n";

/// How the command ended, with the values that its line shows.
#[derive(Clone, Copy)]
pub(crate) enum JournalEnding<'a> {
    /// One that other commands have too.
    Shared(Ending<'a>),
    /// The file of the journal was refused, at this place.
    Refused { place: u64 },
    /// The disk failed.
    DiskFailed,
}

/// How the command ends that has no journal, for this fault.
pub(crate) fn ending_of_fault<'a>(fault: JournalFault) -> JournalEnding<'a>
    ensures { result ≡ ending_of_fault fault }
{
    match fault {
        JournalFault::Refused { place } => JournalEnding::Refused { place },
        JournalFault::DiskFault => JournalEnding::DiskFailed,
        JournalFault::Memory => JournalEnding::Shared(Ending::OutOfMemory),
    }
}

/// How the command ends after such a run.
pub(crate) fn ending_of_run<'a>(ran: Result<Hub, JournalRunFault>) -> JournalEnding<'a>
    ensures { result ≡ ending_of_run ran }
{
    match ran {
        Ok(_) => JournalEnding::Shared(Ending::Finished),
        Err(JournalRunFault::Disk) => JournalEnding::DiskFailed,
        Err(JournalRunFault::Links) => JournalEnding::Shared(Ending::LinksFailed),
        Err(JournalRunFault::Sink) => JournalEnding::Shared(Ending::WriteFailed),
        Err(JournalRunFault::Memory) => JournalEnding::Shared(Ending::OutOfMemory),
    }
}

/// Writes the line of the ending, and gives the status. It takes no memory.
pub(crate) fn report_ending<E: Sink>(ending: JournalEnding, err: &mut E) -> Status
    ensures status { result ≡ status_of ending.entry }
    ensures says { Says ending.entry (E.report err.old) (E.report err.new) }
    ensures no_line { HasNoLine result → err.new ≡ err.old }
{
    match ending {
        JournalEnding::Shared(shared) => report(shared, err),
        JournalEnding::Refused { place } => {
            report_refused(place, err);
            Status::Journal
        }
        JournalEnding::DiskFailed => {
            put_line(err, &[DISK_LINE]);
            Status::DiskFault
        }
    }
}

fn report_refused<E: Sink>(place: u64, err: &mut E)
    ensures { GotLine (E.report err.old) (journal_line place) (E.report err.new) }
{
    let mut digits = Buffer::new();
    let place = digits.format(place);
    put_line(err, &["riemann: journal refused at ", place, "\n"]);
}
