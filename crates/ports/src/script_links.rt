ghost use Rattle.std.specs.Prelude.{◌≡◌, ℕ, ◌+◌, ◌-◌, ◌<◌, ◌≤◌, [], ◌∷◌, ◌++◌, List, Some, false, true, length, drop, take, min, IfOk, OnOk, OnErr};
ghost use Rattle.ports.specs.Calls.{AddsCalls};
ghost use Rattle.ports.specs.Links.{HasListenCause, HasNextCause, IsPieceWithin, IsWithin, MayClose, is_failed_turn, is_memory_send, is_memory_turn, listen_entries, next_entries, piece_of, send_entries};
ghost use Rattle.ports.specs.Playing.{Plays, bytes_taken, first_turn, from_turn, is_turn_answer, rule_after, rules_at_turn, send_answer, taken_by_send, with_rule};
ghost use Rattle.ports.specs.Tables.{rules_in, taken_in};
ghost use Rattle.ports.specs.declared.entry.Entry.TheVariants.{Listen, Next, Send, Close};

use crate::call_log::CallLog;
use crate::links::{Links, ListenAnswer, PIECE_LIMIT, SendAnswer, Turn, Wants, What};
use crate::rules::{SendRule, add_taken, apply_rules, rule_of, set_rule};
use crate::script::{Script, Step};
use ev_types::{Blob, Memory, Text};
use std::alloc::Global;
use std::collections::HashMap;
use std::marker::Model;

/// Links in memory that play a script. Only a send can fail, where the script says so. Contracts see the script, the
/// calls so far, and whether the links are poisoned. They are once a call of [`Links::next`] or [`Links::send`] was out
/// of memory: each later call that can answer so does.
#[derive(Drop)]
pub struct ScriptLinks {
    state: ScriptState,
    taken: HashMap<u64, Blob>,
    // What was taken from a link that took nothing.
    nothing: Blob,
    log: CallLog,
    poisoned: bool,
}

/// The state of a script that is played: its lines, how many were played, the last reading, and the rules of the links.
#[derive(Drop)]
pub(crate) struct ScriptState {
    pub script: Script,
    pub next: usize,
    pub secs: u64,
    pub rules: HashMap<u64, SendRule>,
    ghost within: { next ≤ length script.steps },
}

impl Model for ScriptLinks {
    ghost use Rattle.ports.specs.ScriptLinks.{ScriptedCalls, IsPlaying};
    ghost use Rattle.ports.specs.Tables.{rules_in, taken_in};

    ghost Value = { ScriptedCalls };

    ghost view = { λ links. record {
      script = links.state.script;
      log = links.log;
      poisoned = links.poisoned;
    } };

    ghost invariant = { λ links. IsPlaying links.state.script links.log
        links.state.next links.state.secs (rules_in links.state.rules) (taken_in links.taken)
        links.nothing links.poisoned };
}

impl ScriptLinks {
    /// Links that play this script, before its first turn.
    pub fn fresh(alloc: Global, script: Script) -> ScriptLinks
        ensures script { result.script ≡ script }
        ensures log { result.log ≡ [] }
        ensures poisoned { result.poisoned ≡ false }
    {
        let secs = script.start;
        ScriptLinks {
            state: ScriptState {
                script,
                next: 0,
                secs,
                rules: HashMap::new(alloc),
            },
            taken: HashMap::new(alloc),
            nothing: Blob::fresh(alloc),
            log: CallLog::fresh(),
            poisoned: false,
        }
    }

    /// The script that is played.
    pub fn script(&self) -> &Script
        ensures { result.now ≡ self.now.script }
    {
        &self.state.script
    }

    /// The bytes that were taken from the link, in order.
    pub fn taken(&self, link: u64) -> &Blob
        ensures { result.now ≡ bytes_taken link self.now.log }
    {
        match self.taken.get(&link) {
            Some(bytes) => bytes,
            None => &self.nothing,
        }
    }

    #[tactic(auto, using(crate::proofs::ScriptLemmas::playing_turned, crate::proofs::ScriptLemmas::playing_poisoned))]
    fn play_turn(&mut self, wants: &Wants, buf: &mut [u8]) -> Result<Turn, Memory>
        requires { length buf.old ≡ PIECE_LIMIT }
        ensures within { IfOk result (λ turn. IsPieceWithin PIECE_LIMIT turn.what) }
        ensures succeeded { IfOk result (λ turn. is_turn_answer turn.what ≡ true) }
        ensures some { IfOk result (λ turn. next_entries wants.now buf.new turn
            ≡ Next wants.now turn (piece_of turn.what buf.new) ∷ []) }
        ensures ok { IfOk result (λ turn. self.new.log
            ≡ self.old.log ++ Next wants.now turn (piece_of turn.what buf.new) ∷ []) }
        ensures err { OnErr result (self.new.log ≡ self.old.log) }
        ensures script { self.new.script ≡ self.old.script }
        ensures plays { Plays (Some self.new.script) (Some self.new.log) }
        ensures alive { OnOk result (self.old.poisoned ≡ false) }
        ensures stays_alive { OnOk result (self.new.poisoned ≡ false) }
        ensures poisoned { OnErr result (self.new.poisoned ≡ true) }
    {
        if self.poisoned {
            return Err(Memory);
        }
        self.poisoned = true;
        let turn = self.state.advance(buf)?;
        let count = count_read(turn.what);
        self.log.turned(wants, turn, &buf[..count]);
        self.poisoned = false;
        Ok(turn)
    }

    #[tactic(auto, using(crate::proofs::ScriptLemmas::playing_sent, crate::proofs::ScriptLemmas::playing_poisoned))]
    fn play_send(&mut self, alloc: Global, link: u64, bytes: &[u8]) -> Result<SendAnswer, Memory>
        ensures within { IfOk result (IsWithin (length bytes.now)) }
        ensures some { IfOk result (λ answer.
            send_entries link bytes.now answer ≡ Send link bytes.now answer ∷ []) }
        ensures ok { IfOk result (λ answer. self.new.log ≡ self.old.log
            ++ Send link bytes.now answer ∷ []) }
        ensures err { OnErr result (self.new.log ≡ self.old.log) }
        ensures script { self.new.script ≡ self.old.script }
        ensures plays { Plays (Some self.new.script) (Some self.new.log) }
        ensures alive { OnOk result (self.old.poisoned ≡ false) }
        ensures stays_alive { OnOk result (self.new.poisoned ≡ false) }
        ensures reported { IfOk result (λ answer. is_memory_send answer ≡ false) }
        ensures poisoned { OnErr result (self.new.poisoned ≡ true) }
    {
        if self.poisoned {
            return Err(Memory);
        }
        self.poisoned = true;
        let answer = self.state.send(link, bytes.len())?;
        let count = count_taken(answer);
        add_taken(alloc, &mut self.taken, link, &bytes[..count])?;
        self.log.sent(link, bytes, answer);
        self.poisoned = false;
        Ok(answer)
    }

    /// Adds a call of [`Links::listen`] that failed to the log.
    #[tactic(auto, using(crate::proofs::ScriptLemmas::playing_failed_listen, crate::proofs::ScriptLemmas::plays_some))]
    pub(crate) fn note_failed_listen(&mut self, address: &Text)
        ensures log { self.new.log ≡ self.old.log
            ++ Listen address.now ListenAnswer.Failed ∷ [] }
        ensures script { self.new.script ≡ self.old.script }
        ensures poisoned { self.new.poisoned ≡ self.old.poisoned }
        ensures plays { Plays (Some self.new.script) (Some self.new.log) }
    {
        self.log.listened(address, ListenAnswer::Failed);
    }

    /// Adds a call of [`Links::next`] that failed to the log.
    #[tactic(auto, using(crate::proofs::ScriptLemmas::playing_failed_turn, crate::proofs::ScriptLemmas::plays_some))]
    pub(crate) fn note_failed_turn(&mut self, wants: &Wants) -> Turn
        ensures failed { result.what ≡ What.Failed }
        ensures log { self.new.log ≡ self.old.log ++ Next wants.now result [] ∷ [] }
        ensures script { self.new.script ≡ self.old.script }
        ensures poisoned { self.new.poisoned ≡ self.old.poisoned }
        ensures plays { Plays (Some self.new.script) (Some self.new.log) }
    {
        let turn = Turn {
            secs: self.state.secs,
            what: What::Failed,
        };
        self.log.turned(wants, turn, &[]);
        turn
    }
}

impl ScriptState {
    /// Plays the lines up to the next turn, and that turn. The bytes of a read are written to the start of `buf`.
    #[tactic(auto, using(crate::proofs::RuleLemmas::from_turn_twice))]
    fn advance(&mut self, buf: &mut [u8]) -> Result<Turn, Memory>
        requires { length buf.old ≡ PIECE_LIMIT }
        ensures script { self.new.script ≡ self.old.script }
        ensures within { IfOk result (λ turn. IsPieceWithin PIECE_LIMIT turn.what) }
        ensures succeeded { IfOk result (λ turn. is_turn_answer turn.what ≡ true) }
        ensures turn { IfOk result (λ turn.
            turn ≡ (first_turn (drop self.old.next self.old.script.steps) self.old.secs).turn) }
        ensures piece { IfOk result (λ turn. piece_of turn.what buf.new
            ≡ (first_turn (drop self.old.next self.old.script.steps) self.old.secs).piece) }
        ensures rest { OnOk result (drop self.new.next self.old.script.steps
            ≡ (first_turn (drop self.old.next self.old.script.steps) self.old.secs).rest) }
        ensures secs { IfOk result (λ turn. self.new.secs ≡ turn.secs) }
        ensures rules { OnOk result (rules_in self.new.rules ≡ rules_at_turn
            (drop self.old.next self.old.script.steps) (rules_in self.old.rules)) }
    {
        let (_, steps) = self.script.steps.as_slice().split_at(self.next);
        let count = apply_rules(steps, &mut self.rules)?;
        let (_, rest) = steps.split_at(count);
        let turn = first_turn(rest, self.secs, buf);
        self.next += count + rest.len().min(1);
        self.secs = turn.secs;
        Ok(turn)
    }

    /// Answers a send of `count` bytes.
    fn send(&mut self, link: u64, count: usize) -> Result<SendAnswer, Memory>
        ensures script { self.new.script ≡ self.old.script }
        ensures next { self.new.next ≡ self.old.next }
        ensures secs { self.new.secs ≡ self.old.secs }
        ensures within { IfOk result (IsWithin count) }
        ensures answer { IfOk result (λ answer.
            answer ≡ send_answer (rules_in self.old.rules link) count) }
        ensures rules { OnOk result (rules_in self.new.rules
            ≡ with_rule link (rule_after (rules_in self.old.rules link) count)
            (rules_in self.old.rules)) }
    {
        let rule = rule_of(&self.rules, link);
        set_rule(&mut self.rules, link, rule.after(count))?;
        Ok(rule.answer(count))
    }
}

/// The turn that these lines begin with, or Stopped after the last line. The bytes of a read are written to the start
/// of `buf`.
#[tactic(auto, using(crate::proofs::RuleLemmas::rule_not_first))]
fn first_turn(steps: &[Step], secs: u64, buf: &mut [u8]) -> Turn
    requires first { from_turn steps.now ≡ steps.now }
    requires room { length buf.old ≡ PIECE_LIMIT }
    ensures within { IsPieceWithin PIECE_LIMIT result.what }
    ensures succeeded { is_turn_answer result.what ≡ true }
    ensures turn { result ≡ (first_turn steps.now secs).turn }
    ensures piece { piece_of result.what buf.new ≡ (first_turn steps.now secs).piece }
{
    match steps.split_first() {
        Some((Step::Turn { secs, event }, _)) => Turn {
            secs: *secs,
            what: event.write_to(buf),
        },
        _ => Turn {
            secs,
            what: What::Stopped,
        },
    }
}

/// The number of bytes that came in a turn.
fn count_read(what: What) -> usize
    ensures within { IsPieceWithin PIECE_LIMIT what → result ≤ PIECE_LIMIT }
    ensures piece { (buf : List ℕ) → take result buf ≡ piece_of what buf }
{
    match what {
        What::Read { link: _, count } => count,
        _ => 0,
    }
}

/// The number of bytes that a send took.
fn count_taken(answer: SendAnswer) -> usize
    ensures within { (offered : ℕ) → IsWithin offered answer → result ≤ offered }
    ensures bytes { (bytes : List ℕ) → take result bytes ≡ taken_by_send bytes answer }
{
    match answer {
        SendAnswer::Took { count } => count,
        _ => 0,
    }
}

impl Links for ScriptLinks {
    ghost use Rattle.ports.specs.ScriptLinks.{listen_answer, script_report};

    ghost report = { λ links. script_report links };

    #[tactic(auto, using(crate::proofs::CallLemmas::no_calls))]
    fn listen(&mut self, _alloc: Global, address: &Text) -> ListenAnswer
        ensures adds { AddsCalls (script_report self.old) (script_report self.new)
            (listen_entries address.now result) }
        ensures cause { HasListenCause 0 0 result }

        // More than links must report: the answer, and that it poisons nothing.
        ensures answer { result ≡ listen_answer self.old }
        ensures poisoned { self.new.poisoned ≡ self.old.poisoned }
    {
        if self.poisoned {
            return ListenAnswer::Memory;
        }
        let answer = ListenAnswer::Ready {
            secs: self.state.secs,
        };
        self.log.listened(address, answer);
        answer
    }

    #[tactic(auto, using(crate::proofs::CallLemmas::played_calls))]
    fn next(&mut self, _alloc: Global, wants: &Wants, buf: &mut [u8]) -> Turn
        requires { length buf.old ≡ PIECE_LIMIT }
        ensures within { IsPieceWithin PIECE_LIMIT result.what }
        ensures adds { AddsCalls (script_report self.old) (script_report self.new)
            (next_entries wants.now buf.new result) }
        ensures cause { HasNextCause 0 0 result.what }

        // More than links must report: the call never fails, and one that was out of memory poisons the links.
        ensures no_fault { is_failed_turn result.what ≡ false }
        ensures poison { self.old.poisoned ≡ true → result.what ≡ What.Memory }
        ensures poisoned { self.new.poisoned ≡ is_memory_turn result.what }
    {
        match self.play_turn(wants, buf) {
            Ok(turn) => turn,
            Err(_) => Turn {
                secs: 0,
                what: What::Memory,
            },
        }
    }

    #[tactic(auto, using(crate::proofs::CallLemmas::played_calls))]
    fn send(&mut self, alloc: Global, link: u64, bytes: &[u8]) -> SendAnswer
        requires { 0 < length bytes.now }
        ensures within { IsWithin (length bytes.now) result }
        ensures adds { AddsCalls (script_report self.old) (script_report self.new)
            (send_entries link bytes.now result) }

        // More than links must report: a call that was out of memory poisons the links.
        ensures poison { self.old.poisoned ≡ true → result ≡ SendAnswer.Memory }
        ensures poisoned { self.new.poisoned ≡ is_memory_send result }
    {
        match self.play_send(alloc, link, bytes) {
            Ok(answer) => answer,
            Err(_) => SendAnswer::Memory,
        }
    }

    fn close(&mut self, link: u64)
        requires { MayClose (Some self.old.log) link }
        ensures adds { AddsCalls (script_report self.old) (script_report self.new)
            (Close link ∷ []) }

        // More than links must report: it poisons nothing.
        ensures poisoned { self.new.poisoned ≡ self.old.poisoned }
    {
        self.log.closed(link);
    }
}
