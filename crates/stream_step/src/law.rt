ghost use Rattle.stream_step.specs.Step.{QuietTicksKeepStates};

/// A tick at which a stream passes nothing on leaves what it keeps: the state represents the longer history too.
pub fn quiet_ticks_keep_states()
    ensures { QuietTicksKeepStates }
{}
