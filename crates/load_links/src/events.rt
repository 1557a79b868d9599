ghost use Rattle.std.specs.Prelude.{◌≡◌, ℕ, ◌+◌, ◌^◌, ◌<◌, ◌≤◌, ◌∷◌, ◌++◌, [], length, IfOk, OnOk};
ghost use Rattle.std.specs.Fmt.{decimal};
ghost use Rattle.framing.specs.Frames.{frame};
ghost use Rattle.load_links.specs.Load.{event_step, load_event, number_after, number_at, query_msg, read_step, state_of};
ghost use Rattle.riemann_msg.specs.Spelling.{spelling};

use ev_types::{Attrs, Blob, Event, Events, Memory, Tags, Text};
use ports::{LinkEvent, Piece, ScriptSteps, Step};
use riemann_msg::{Msg, QueryPart, write_msg};
use std::alloc::Global;

/// By how much the generator multiplies its number to get the next one.
pub const MULTIPLIER: u64 = 6_364_136_223_846_793_005;

/// How much the generator adds then. The sum is taken modulo 2^64.
pub const INCREMENT: u64 = 1_442_695_040_888_963_407;

/// The generator's next number.
pub(crate) fn number_after(number: u64) -> u64
    ensures { result ≡ number_after number }
{
    number.wrapping_mul(MULTIPLIER).wrapping_add(INCREMENT)
}

/// Adds the read of the event of number `i`. The generator's number of that event is `number`.
#[tactic(auto, using(crate::proofs::LoadLemmas::event_fits))]
pub(crate) fn push_event(
    alloc: Global,
    i: u64,
    number: u64,
    steps: &mut ScriptSteps,
) -> Result<(), Memory>
    ensures { OnOk result ((start : ℕ) → number ≡ number_at start i →
        steps.new ≡ steps.old ++ event_step start i ∷ []) }
{
    let second = i / 10;
    let event = load_event(alloc, second, number >> 33)?;
    let mut events = Events::fresh(alloc);
    events.push(alloc, event)?;
    let msg = Msg {
        ok: None,
        error: None,
        query: None,
        events,
    };
    push_read(alloc, second, &msg, steps)
}

/// Adds the read of the query for all events.
#[tactic(auto, using(crate::proofs::LoadLemmas::query_fits))]
pub(crate) fn push_query(alloc: Global, second: u64, steps: &mut ScriptSteps) -> Result<(), Memory>
    ensures { OnOk result (steps.new ≡ steps.old ++ read_step second query_msg ∷ []) }
{
    let query = QueryPart {
        string: Some(Text::from_str(alloc, "true")?),
    };
    let msg = Msg {
        ok: None,
        error: None,
        query: Some(query),
        events: Events::fresh(alloc),
    };
    push_read(alloc, second, &msg, steps)
}

/// Adds a read of the message on link 0.
#[tactic(auto, using(crate::proofs::LoadLemmas::frame_length))]
fn push_read(alloc: Global, secs: u64, msg: &Msg, steps: &mut ScriptSteps) -> Result<(), Memory>
    requires { length (spelling msg.now) ≤ 65532 }
    ensures { OnOk result (steps.new ≡ steps.old ++ read_step secs msg.now ∷ []) }
{
    let piece = Piece::from_blob(framed(alloc, msg)?).unwrap();
    let event = LinkEvent::Read { link: 0, piece };
    steps.push(alloc, Step::Turn { secs, event })?;
    Ok(())
}

/// The frame of a message.
fn framed(alloc: Global, msg: &Msg) -> Result<Blob, Memory>
    requires { length (spelling msg.now) < 2 ^ 32 }
    ensures { IfOk result (λ bytes. bytes ≡ frame (spelling msg.now)) }
{
    let mut body = Blob::fresh(alloc);
    write_msg(alloc, msg, &mut body)?;
    let length = body.len() as u32;
    let mut bytes = Blob::from_slice(alloc, &length.to_be_bytes())?;
    bytes.append(alloc, body.as_slice())?;
    Ok(bytes)
}

/// The event of a second whose fields are drawn from a number.
fn load_event(alloc: Global, second: u64, drawn: u64) -> Result<Event, Memory>
    requires { second < 2 ^ 63 }
    ensures { IfOk result (λ event. event ≡ load_event second drawn) }
{
    Ok(Event {
        host: Some(numbered(alloc, "h", drawn % 10)?),
        service: Some(numbered(alloc, "s", drawn / 10 % 5)?),
        state: Some(Text::from_str(alloc, state_of(drawn))?),
        description: None,
        tags: Tags::fresh(alloc),
        time: second as i64,
        time_micros: None,
        ttl: None,
        metric: Some((drawn / 200 % 1000) as i64),
        raw_d: None,
        raw_f: None,
        attributes: Attrs::fresh(alloc),
    })
}

/// A name with a number after it.
fn numbered(alloc: Global, name: &str, number: u64) -> Result<Text, Memory>
    ensures { IfOk result (λ text. text ≡ name.now ++ decimal number) }
{
    Ok(Text::from_string(format!(in alloc; "{name}{number}")?))
}

fn state_of(drawn: u64) -> &'static str
    ensures { result.now ≡ state_of drawn }
{
    if drawn / 50 % 4 == 0 {
        "critical"
    } else {
        "ok"
    }
}
