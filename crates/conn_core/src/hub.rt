ghost use Rattle.std.specs.Prelude.{◌≡◌, ◌≢◌, ◌-◌, ℕ, true, false, [], List, replicate, IfOk, OnErr, OnOk};
ghost use Rattle.conn_core.specs.Hub.{core_of, has_stopped, wants_in, Follows};
ghost use Rattle.conn_core.specs.Known.{Answered, AreUnclosed, IsOpenedBy};
ghost use Rattle.conn_core.specs.Occurring.{OccursFrom};
ghost use Rattle.conn_core.specs.Turning.{TurnsFrom};
ghost use Rattle.ev_types.specs.Clock.{next_moment};
ghost use Rattle.hub_link.specs.event_core.Core.{Represents, config_of, now_of};
ghost use Rattle.hub_link.specs.Added.{Added};
ghost use Rattle.hub_link.specs.msg_replies.Arriving.{Arrives, reported};
ghost use Rattle.ports.specs.Counts.{Rose};
ghost use Rattle.stream_meaning.specs.Arrivals.{Arrival, Elapsed};

use crate::lines::write_lines;
use crate::links::{change, settle};
use crate::stop::Stop;
use crate::table::LinkTable;
use ev_types::{Memory, Notices};
use hub_link::HubLink;
use hub_link::event_core::Core;
use hub_link::hub_meaning::next_moment;
use hub_link::msg_replies::Spare;
use ports::{Links, Sink, Turn, Wants, What};
use pred_eval::Patterns;
use std::alloc::Global;
use step_count::{Ledger, Steps};

/// A server's core, and its links. After a [`Stop`] nothing is known of a hub but that it stopped.
#[derive(Drop)]
pub struct Hub {
    core: Core,
    table: LinkTable<HubLink>,
    // Memory that messages are read into.
    spare: Spare,
    // A turn stopped: no other is taken.
    stopped: bool,
}

impl Hub {
    /// A hub without links, over a core to which nothing has arrived.
    pub fn fresh(alloc: Global, core: Core) -> Result<Hub, Memory>
        ensures follows { IfOk result (λ hub. Represents core [] →
            Follows hub (config_of core) []) }
        ensures core { IfOk result (λ hub. core_of hub ≡ core) }
        ensures wants { IfOk result (λ hub. wants_in hub ≡ []) }
        ensures going { IfOk result (λ hub. has_stopped hub ≡ false) }
    {
        Ok(Hub {
            core,
            table: LinkTable::fresh(alloc),
            spare: Spare::fresh(alloc),
            stopped: false,
        })
    }

    /// What is waited for on each connected link, by rising number.
    pub fn wants(&self) -> &Wants
        ensures { result.now ≡ wants_in self.now }
    {
        self.table.wants()
    }

    /// The streams, and their index.
    pub fn core(&self) -> &Core
        ensures { result.now ≡ core_of self.now }
    {
        &self.core
    }

    /// One turn: the seconds up to its moment pass, and then comes what occurred on a link, with the bytes of a read in
    /// `piece`. That link is sent what is unsent, and it is closed if it is over. At the end the notices of the turn
    /// are written as lines, in order, each in one put. Once a turn stopped, no other is taken.
    pub fn turn<L: Links, O: Sink, P: Patterns, G: Ledger>(
        &mut self,
        alloc: Global,
        turn: Turn,
        piece: &[u8],
        links: &mut L,
        sink: &mut O,
        patterns: &mut P,
        steps: &mut Steps<G>,
    ) -> Result<(), Stop>
        requires going { has_stopped self.old ≡ false }
        requires failed { turn.what ≢ What.Failed }
        requires memory { turn.what ≢ What.Memory }
        requires known { AreUnclosed (L.report links.old).log (wants_in self.old) }
        requires answered { Answered (L.report links.old).log turn }
        ensures going { OnOk result (has_stopped self.new ≡ false) }
        ensures stopped { OnErr result (has_stopped self.new ≡ true) }
        ensures known { OnOk result (AreUnclosed (L.report links.new).log (wants_in self.new)) }
        ensures turns { Added (L.report links.old) (L.report links.new)
            (TurnsFrom turn piece.now self.old self.new (P.report patterns.old)
            (P.report patterns.new) steps.old.forks steps.new.forks (O.report sink.old)
            (O.report sink.new) result) }
        ensures fault { result ≡ Err Stop.SinkFault →
            Rose (O.report sink.old).faults (O.report sink.new).faults }
        ensures memory { result ≡ Err Stop.Memory → (O.report sink.new).faults ≡
            (O.report sink.old).faults }
        ensures no_fault { OnOk result ((O.report sink.new).faults ≡ (O.report sink.old).faults) }
    {
        self.stopped = true;
        let mut notices = Notices::fresh(alloc);
        pass(alloc, &mut self.core, turn.secs, &mut notices, steps)?;
        self.occur(
            alloc,
            turn.what,
            piece,
            links,
            patterns,
            &mut notices,
            steps,
        )?;
        write_lines(alloc, notices.as_slice(), sink)?;
        self.stopped = false;
        Ok(())
    }

    /// What occurred in a turn, at its moment.
    fn occur<L: Links, P: Patterns, G: Ledger>(
        &mut self,
        alloc: Global,
        what: What,
        piece: &[u8],
        links: &mut L,
        patterns: &mut P,
        notices: &mut Notices,
        steps: &mut Steps<G>,
    ) -> Result<(), Memory>
        requires known { AreUnclosed (L.report links.old).log (wants_in self.old) }
        requires opened { IsOpenedBy (L.report links.old).log what }
        ensures stopped { has_stopped self.new ≡ has_stopped self.old }
        ensures known { OnOk result (AreUnclosed (L.report links.new).log (wants_in self.new)) }
        ensures occurs { Added (L.report links.old) (L.report links.new)
            (OccursFrom what piece.now self.old self.new (P.report patterns.old)
            (P.report patterns.new) (reported notices.old steps.old.forks)
            (reported notices.new steps.new.forks) result) }
    {
        match what {
            What::Read { link, .. } => {
                self.read(alloc, link, piece, links, patterns, notices, steps)
            }
            _ => change(alloc, &mut self.table, what, links),
        }
    }

    /// A piece was read from the link of this number. One of no open link is ignored.
    fn read<L: Links, P: Patterns, G: Ledger>(
        &mut self,
        alloc: Global,
        number: u64,
        piece: &[u8],
        links: &mut L,
        patterns: &mut P,
        notices: &mut Notices,
        steps: &mut Steps<G>,
    ) -> Result<(), Memory>
        requires { AreUnclosed (L.report links.old).log (wants_in self.old) }
        ensures stopped { has_stopped self.new ≡ has_stopped self.old }
        ensures known { OnOk result (AreUnclosed (L.report links.new).log (wants_in self.new)) }
        ensures occurs { (count : ℕ) → Added (L.report links.old) (L.report links.new)
            (OccursFrom (What.Read number count) piece.now self.old self.new (P.report patterns.old)
            (P.report patterns.new) (reported notices.old steps.old.forks)
            (reported notices.new steps.new.forks) result) }
    {
        let Some(place) = self.table.find(number) else {
            return Ok(());
        };
        self.table.value_mut(place).hear(
            alloc,
            piece,
            &mut self.spare,
            &mut self.core,
            patterns,
            notices,
            steps,
        )?;
        settle(alloc, &mut self.table, number, place, links)?;
        Ok(())
    }
}

/// The seconds pass up to the moment of a turn that reads the clock at `secs`.
fn pass<G: Ledger>(
    alloc: Global,
    core: &mut Core,
    secs: u64,
    notices: &mut Notices,
    steps: &mut Steps<G>,
) -> Result<(), Memory>
    ensures now { OnOk result (now_of core.new ≡ next_moment (now_of core.old) secs) }
    ensures arrives { OnOk result ((arrivals : List Arrival) → Represents core.old arrivals
        → Arrives core.old core.new arrivals
        (replicate (next_moment (now_of core.old) secs - now_of core.old) Elapsed)
        (reported notices.old steps.old.forks) (reported notices.new steps.new.forks)) }
{
    let to = next_moment(core.now(), secs);
    core.advance(alloc, to, notices, steps)?;
    Ok(())
}
