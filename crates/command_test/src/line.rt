//! The line of a verdict.

ghost use Rattle.std.specs.Prelude.{◌≡◌, ◌++◌, IfOk, OnOk};
ghost use Rattle.command_test.specs.Lines.{fail_line, pass_line, verdict_line};

use ev_types::{Blob, Memory, Text};
use itoa::Buffer;
use notice_sink::put_quoted;
use std::alloc::Global;
use stream_tests::Verdict;

/// The line of the verdict on the test of this name: `pass "t"`, or `fail "t": notice "c" number 1`. Names are quoted
/// as in the lines of notices.
pub(crate) fn verdict_line(alloc: Global, name: &Text, verdict: &Verdict) -> Result<Blob, Memory>
    ensures { IfOk result (λ line. line ≡ verdict_line name.now verdict.now) }
{
    let mut line = Blob::fresh(alloc);
    match verdict {
        Verdict::Pass => put_pass(alloc, name, &mut line)?,
        Verdict::Differs {
            name: notice,
            number,
        } => put_fail(alloc, name, notice, *number, &mut line)?,
    }
    Ok(line)
}

fn put_pass(alloc: Global, name: &Text, line: &mut Blob) -> Result<(), Memory>
    ensures { OnOk result (line.new ≡ line.old ++ pass_line name.now) }
{
    line.append(alloc, b"pass ")?;
    put_quoted(alloc, name, line)?;
    line.push(alloc, b'\n')?;
    Ok(())
}

/// Appends the line of a test that does not pass: under the name of the notice, the item of this number differs.
fn put_fail(
    alloc: Global,
    name: &Text,
    notice: &Text,
    number: u64,
    line: &mut Blob,
) -> Result<(), Memory>
    ensures { OnOk result (line.new ≡ line.old ++ fail_line name.now notice.now number) }
{
    let mut digits = Buffer::new();
    line.append(alloc, b"fail ")?;
    put_quoted(alloc, name, line)?;
    line.append(alloc, b": notice ")?;
    put_quoted(alloc, notice, line)?;
    line.append(alloc, b" number ")?;
    line.append(alloc, digits.format(number).as_bytes())?;
    line.push(alloc, b'\n')?;
    Ok(())
}
