ghost use Rattle.riemann_commands.specs.Indexed.{LastLinesAreLeft};

use command_setup::hub_run::feeds_are_posted;
use graphite_lines::frames_are_read_back;

/// If what `graphite` wrote of a text is fed to a server whose one stream is `index`, the last line of each key that was
/// accepted is in the index then.
pub fn last_lines_are_left()
    ensures { LastLinesAreLeft }
{
    frames_are_read_back();
    feeds_are_posted();
}
