ghost use Rattle.std.specs.Prelude.{◌≡◌, ◌≢◌, [], Err, IfErr, OnOk};
ghost use Rattle.ev_types.specs.Interval.{IsInterval};
ghost use Rattle.command_setup.specs.hub_run.Runs.{run_report};
ghost use Rattle.ports.specs.Counts.{Rose};
ghost use Rattle.command_files.specs.Runs.{RunsScript, RunsWhole};

use command_setup::hub_run::{RunFault, Setup, run};
use ports::{ScriptLinks, Sink};
use pred_eval::Patterns;
use std::alloc::Global;
use step_count::{Ledger, Steps};

/// Runs a server over the links from the first turn of their script to its last, with at most `u64::MAX` turns.
/// Notices are written to `sink`, a line in each put.
#[tactic(auto, using(crate::proofs::RunLaws::ran_script, crate::proofs::RunLaws::same_script))]
pub fn run_script<O: Sink, P: Patterns, G: Ledger>(
    alloc: Global,
    setup: Setup,
    links: &mut ScriptLinks,
    sink: &mut O,
    patterns: &mut P,
    steps: &mut Steps<G>,
) -> Result<(), RunFault>
    requires interval { IsInterval setup.expiry }
    requires begins { links.old.log ≡ [] }
    ensures whole { OnOk result (RunsWhole setup links.old.script
        (run_report (P.report patterns.old) steps.old.forks (O.report sink.old))
        (run_report (P.report patterns.new) steps.new.forks (O.report sink.new)) links.new.log) }
    ensures cut { IfErr result (λ fault. RunsScript setup links.old.script
        (run_report (P.report patterns.old) steps.old.forks (O.report sink.old))
        (run_report (P.report patterns.new) steps.new.forks (O.report sink.new)) (Err fault)
        links.new.log) }
    ensures script { links.new.script ≡ links.old.script }
    ensures links_work { result ≢ Err RunFault.Links }
    ensures sink_fault { result ≡ Err RunFault.Sink →
        Rose (O.report sink.old).faults (O.report sink.new).faults }
    ensures sink_quiet { result ≢ Err RunFault.Sink → (O.report sink.new).faults ≡
        (O.report sink.old).faults }
{
    let _hub = run(alloc, setup, u64::MAX, links, sink, patterns, steps)?;
    Ok(())
}
