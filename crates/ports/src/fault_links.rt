ghost use Rattle.std.specs.Prelude.{◌≡◌, ◌<◌, ◌≤◌, [], ◌∷◌, false, true, if◌then◌else◌, length, MatchBool, Some};
ghost use Rattle.ports.specs.Calls.{AddsCalls};
ghost use Rattle.ports.specs.Counts.{Rose, count_after};
ghost use Rattle.ports.specs.Links.{HasListenCause, HasNextCause, IsPieceWithin, IsWithin, MayClose, is_failed_turn, is_memory_send, is_memory_turn, listen_entries, next_entries, send_entries};
ghost use Rattle.ports.specs.ScriptLinks.{listen_answer};
ghost use Rattle.ports.specs.declared.entry.Entry.TheVariants.{Close};

use crate::links::{Links, ListenAnswer, PIECE_LIMIT, SendAnswer, Turn, Wants, What};
use crate::script_links::ScriptLinks;
use ev_types::Text;
use std::alloc::Global;

/// Links in memory that play a script, and of which some calls fail. A call that failed is in the log too. The inner
/// links answer each other call.
#[derive(Drop)]
pub struct FaultLinks {
    pub inner: ScriptLinks,
    /// The numbers, from 0, of the calls of [`Links::listen`] and [`Links::next`] that fail. They are counted together.
    pub failing: Vec<u64>,
    /// The number of these calls so far.
    pub calls: u64,
    /// The number of these calls that failed.
    pub faults: u64,
}

impl FaultLinks {
    ghost use Rattle.ports.specs.FaultLinks.{faults_after, is_chosen};

    /// Links that do what `inner` does, but for the calls with these numbers.
    pub fn fresh(inner: ScriptLinks, failing: Vec<u64>) -> FaultLinks
        ensures inner { result.inner ≡ inner }
        ensures failing { result.failing ≡ failing }
        ensures calls { result.calls ≡ 0 }
        ensures faults { result.faults ≡ 0 }
    {
        FaultLinks {
            inner,
            failing,
            calls: 0,
            faults: 0,
        }
    }

    /// Counts a call, and answers whether it fails.
    fn count_call(&mut self) -> bool
        ensures fails { result ≡ is_chosen self.old }
        ensures inner { self.new.inner ≡ self.old.inner }
        ensures calls { self.new.calls ≡ count_after self.old.calls 1 }
        ensures failing { self.new.failing ≡ self.old.failing }
        ensures counted { self.new.faults ≡ faults_after self.old }
        ensures cause { MatchBool result (Rose self.old.faults self.new.faults)
            (self.new.faults ≡ self.old.faults) }
        ensures faults { self.old.faults ≤ self.new.faults }
    {
        let fails = self.failing.contains(&self.calls);
        self.calls = self.calls.saturating_add(1);
        if fails {
            self.faults = self.faults.saturating_add(1);
        }
        fails
    }
}

impl Links for FaultLinks {
    ghost use Rattle.ports.specs.FaultLinks.{fault_report, faults_after, is_chosen};

    ghost report = { λ links. fault_report links };

    fn listen(&mut self, alloc: Global, address: &Text) -> ListenAnswer
        ensures adds { AddsCalls (fault_report self.old) (fault_report self.new)
            (listen_entries address.now result) }
        ensures cause { HasListenCause self.old.faults self.new.faults result }

        // More than links must report: which calls fail, what the inner links answer to the others, and the counts.
        ensures answer { result ≡ (if is_chosen self.old then ListenAnswer.Failed
            else listen_answer self.old.inner) }
        ensures poisoned { self.new.inner.poisoned ≡ self.old.inner.poisoned }
        ensures counted { self.new.faults ≡ faults_after self.old }
        ensures calls { self.new.calls ≡ count_after self.old.calls 1 }
        ensures failing { self.new.failing ≡ self.old.failing }
    {
        if self.count_call() {
            self.inner.note_failed_listen(address);
            return ListenAnswer::Failed;
        }
        self.inner.listen(alloc, address)
    }

    #[tactic(auto, using(crate::proofs::ScriptLemmas::next_counts, crate::proofs::CallLemmas::calls_counted, crate::proofs::CallLemmas::played_calls))]
    fn next(&mut self, alloc: Global, wants: &Wants, buf: &mut [u8]) -> Turn
        requires { length buf.old ≡ PIECE_LIMIT }
        ensures within { IsPieceWithin PIECE_LIMIT result.what }
        ensures adds { AddsCalls (fault_report self.old) (fault_report self.new)
            (next_entries wants.now buf.new result) }
        ensures cause { HasNextCause self.old.faults self.new.faults result.what }

        // More than links must report: which calls fail, what the inner links answer to the others, and the counts.
        ensures fails { is_failed_turn result.what ≡ is_chosen self.old }
        ensures poison { is_chosen self.old ≡ false → self.old.inner.poisoned ≡ true
            → result.what ≡ What.Memory }
        ensures poisoned { self.new.inner.poisoned ≡ (if is_chosen self.old
            then self.old.inner.poisoned else is_memory_turn result.what) }
        ensures counted { self.new.faults ≡ faults_after self.old }
        ensures calls { self.new.calls ≡ count_after self.old.calls 1 }
        ensures failing { self.new.failing ≡ self.old.failing }
    {
        if self.count_call() {
            return self.inner.note_failed_turn(wants);
        }
        self.inner.next(alloc, wants, buf)
    }

    #[tactic(auto, using(crate::proofs::CallLemmas::calls_counted))]
    fn send(&mut self, alloc: Global, link: u64, bytes: &[u8]) -> SendAnswer
        requires { 0 < length bytes.now }
        ensures within { IsWithin (length bytes.now) result }
        ensures adds { AddsCalls (fault_report self.old) (fault_report self.new)
            (send_entries link bytes.now result) }

        // More than links must report: the inner links answer, and the call is not counted.
        ensures poison { self.old.inner.poisoned ≡ true → result ≡ SendAnswer.Memory }
        ensures poisoned { self.new.inner.poisoned ≡ is_memory_send result }
        ensures counted { self.new.faults ≡ self.old.faults }
        ensures calls { self.new.calls ≡ self.old.calls }
        ensures failing { self.new.failing ≡ self.old.failing }
    {
        self.inner.send(alloc, link, bytes)
    }

    #[tactic(auto, using(crate::proofs::CallLemmas::calls_counted))]
    fn close(&mut self, link: u64)
        requires { MayClose (Some self.old.inner.log) link }
        ensures adds { AddsCalls (fault_report self.old) (fault_report self.new) (Close link ∷ []) }

        // More than links must report: the call is not counted.
        ensures poisoned { self.new.inner.poisoned ≡ self.old.inner.poisoned }
        ensures counted { self.new.faults ≡ self.old.faults }
        ensures calls { self.new.calls ≡ self.old.calls }
        ensures failing { self.new.failing ≡ self.old.failing }
    {
        self.inner.close(link);
    }
}
