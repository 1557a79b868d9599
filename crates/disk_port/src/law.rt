//! What holds of the pasts that a disk reports.

ghost use Rattle.disk_port.specs.Laws.{CallsArePossible, ReadsAreLeft};

/// A crash may leave what a read gives, of each past to which calls of a disk can lead.
pub fn reads_are_left()
    ensures left { ReadsAreLeft }
    ensures calls { CallsArePossible }
{}
