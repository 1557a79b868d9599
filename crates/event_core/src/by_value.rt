//! The call that takes an event by value.

ghost use Rattle.std.specs.Prelude.{◌≡◌, [], ◌∷◌};
ghost use Rattle.stream_meaning.specs.Arrivals.{Post};
ghost use Rattle.event_core.specs.Core.{now_of, Receives};

use crate::Core;
use ev_types::{Event, Memory, Notices};
use std::alloc::Global;
use step_count::{Ledger, Steps};

impl Core {
    /// Posts as [`Core::post_from`] does, but takes the event by value.
    pub fn post<G: Ledger>(
        &mut self,
        alloc: Global,
        mut event: Event,
        out: &mut Notices,
        steps: &mut Steps<G>,
    ) -> Result<(), Memory>
        ensures now { now_of self.new ≡ now_of self.old }
        ensures receives { Receives (Post event ∷ []) self.old self.new
            out.old out.new steps.old steps.new result }
    {
        self.post_from(alloc, &mut event, out, steps)
    }
}
