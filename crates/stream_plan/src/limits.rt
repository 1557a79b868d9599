ghost use Rattle.std.specs.Prelude.{◌≡◌};
ghost use Rattle.ev_types.specs.Limits.{longest_interval};
ghost use Rattle.stream_plan.specs.Limits.{count_limit, depth_limit, streams_limit};
ghost use Rattle.stream_plan.specs.declared.kinds.TheConstants.{MAX_COUNT, MAX_SECS};
ghost use Rattle.stream_plan.specs.declared.search.TheConstants.{MAX_DEPTH, MAX_STREAMS};

/// The limits of the code are the numbers that the definitions name.
pub fn limits_are_numbers()
    ensures count { MAX_COUNT ≡ count_limit }
    ensures secs { MAX_SECS ≡ longest_interval }
    ensures streams { MAX_STREAMS ≡ streams_limit }
    ensures depth { MAX_DEPTH ≡ depth_limit }
{}
