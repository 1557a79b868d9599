ghost use Rattle.std.specs.Prelude.{◌≡◌, ◌≢◌, false, [], vec_len, Err, IfOk};
ghost use Rattle.conn_core.specs.Hub.{Follows, has_stopped, wants_in};
ghost use Rattle.ev_types.specs.Interval.{IsInterval};
ghost use Rattle.hub_run.specs.Runs.{AddsRun, config_at};
ghost use Rattle.hub_run.specs.Taking.{ListensOn};
ghost use Rattle.ports.specs.Counts.{Rose};

use crate::{RunFault, Setup};
use conn_core::Hub;
use conn_core::event_core::Core;
use ev_types::{LATEST_MOMENT, Memory, Text};
use ports::{Links, ListenAnswer, PIECE_LIMIT};
use std::alloc::Global;

/// A buffer for the bytes that a turn reads.
pub(crate) fn buffer(alloc: Global) -> Result<Vec<u8>, Memory>
    ensures { IfOk result (λ buf. vec_len buf ≡ PIECE_LIMIT) }
{
    Ok(vec![in alloc; 0; PIECE_LIMIT]?)
}

/// Starts to listen, and gives the first reading of the clock, in seconds since 1970.
pub(crate) fn listen<L: Links>(
    alloc: Global,
    address: &Text,
    links: &mut L,
) -> Result<u64, RunFault>
    ensures listens { AddsRun (L.report links.old) (L.report links.new)
        (ListensOn address.now result) }
    ensures links_fault { result ≡ Err RunFault.Links →
        Rose (L.report links.old).faults (L.report links.new).faults }
    ensures links_quiet { result ≢ Err RunFault.Links → (L.report links.new).faults ≡
        (L.report links.old).faults }
    ensures no_sink { result ≢ Err RunFault.Sink }
{
    match links.listen(alloc, address) {
        ListenAnswer::Ready { secs } => Ok(secs),
        ListenAnswer::Failed => Err(RunFault::Links),
        ListenAnswer::Memory => Err(RunFault::Memory),
    }
}

/// A hub over a new core, whose clock is first read as `secs`.
pub(crate) fn open_hub(alloc: Global, setup: Setup, secs: u64) -> Result<Hub, Memory>
    requires interval { IsInterval setup.expiry }
    ensures follows { IfOk result (λ hub. Follows hub (config_at setup secs) []) }
    ensures wants { IfOk result (λ hub. wants_in hub ≡ []) }
    ensures going { IfOk result (λ hub. has_stopped hub ≡ false) }
{
    let moment = secs.min(LATEST_MOMENT);
    let core = Core::fresh(alloc, setup.plan, setup.expiry, moment)?;
    let hub = Hub::fresh(alloc, core)?;
    Ok(hub)
}
