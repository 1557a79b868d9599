//! Writing the frame of an event straight from the line that says it.

ghost use Rattle.std.specs.Prelude.{◌≡◌, ◌+◌, ◌≤◌, ◌++◌, length, IfSome, OnOk, OnErr};
ghost use Rattle.std.specs.Option.{option_copied};
ghost use Rattle.framing.specs.Frames.{frame};
ghost use Rattle.list_laws.specs.Prefix.{IsPrefix};
ghost use Rattle.pb_wire.specs.Spelling.{Bytes, field_spelling};
ghost use Rattle.pb_wire.specs.Varint.{varint};
ghost use Rattle.riemann_msg.specs.Spelling.{event_values, optional, spelled, spelling, zigzag};
ghost use Rattle.graphite_lines.specs.Frames.{message_with};
ghost use Rattle.graphite_lines.specs.Reading.{IsShort, said_event};

use crate::line::Said;
use ev_types::{Blob, Memory};
use pb_wire::{PutBody, put_field, put_tag_and_length, varint_len};
use std::alloc::Global;

// The numbers of fields, as Riemann's `proto.proto` has them.

const EVENTS: u32 = 6;

const TIME: u32 = 1;

const SERVICE: u32 = 3;

const HOST: u32 = 4;

const METRIC_SINT64: u32 = 13;

/// Appends the frame of the message that holds the event alone. Its texts are copied once, from the line. If memory
/// runs out, `out` still begins with what it had.
pub(crate) fn put_frame(alloc: Global, said: Said<'_>, out: &mut Blob) -> Result<(), Memory>
    requires { IsShort said }
    ensures ok { OnOk result (out.new
        ≡ out.old ++ frame (spelling (message_with (said_event said.entry)))) }
    ensures err { OnErr result (IsPrefix out.old out.new) }
{
    let size = event_size(said);
    let length = 1 + varint_len(size as u64) + size;
    out.append(alloc, &(length as u32).to_be_bytes())?;
    put_tag_and_length(alloc, out, EVENTS, size)?;
    put_event(alloc, said, out)?;
    Ok(())
}

/// How many bytes the fields of the event have.
#[tactic(auto, using(crate::proofs::Spelled::said_length))]
fn event_size(said: Said<'_>) -> usize
    requires { IsShort said }
    ensures size { result ≡ length (spelled (event_values (said_event said.entry))) }
    ensures small { result ≤ 3000 }
{
    let time = 1 + varint_len(said.time.cast_unsigned());
    let service = text_size(said.placed.front.len() + said.placed.back.len());
    let host = host_size(said.placed.host);
    let metric = 1 + varint_len(zigzag(said.metric));
    time + service + host + metric
}

/// How many bytes a text of so many bytes has, with its tag and its length.
fn text_size(bytes: usize) -> usize
    requires { bytes ≤ 1024 }
    ensures size { result ≡ 1 + (length (varint bytes) + bytes) }
    ensures small { result ≤ 1035 }
{
    1 + varint_len(bytes as u64) + bytes
}

/// How many bytes the host has, with its tag and its length, where there is one.
#[tactic(auto, using(riemann_msg::proofs::Lengths::text_length))]
fn host_size(host: Option<&str>) -> usize
    requires { IfSome host (λ host. length host.now ≤ 1024) }
    ensures size { result ≡ length (spelled (optional HOST Bytes (option_copied host.entry))) }
    ensures small { result ≤ 1035 }
{
    match host {
        Some(host) => text_size(host.len()),
        None => 0,
    }
}

/// Appends the fields of the event.
#[tactic(auto, using(crate::proofs::Spelled::said_spelled))]
fn put_event(alloc: Global, said: Said<'_>, out: &mut Blob) -> Result<(), Memory>
    requires { IsShort said }
    ensures ok { OnOk result (out.new ≡ out.old ++ spelled (event_values (said_event said.entry))) }
    ensures err { OnErr result (IsPrefix out.old out.new) }
{
    put_field(alloc, out, TIME, PutBody::Varint(said.time.cast_unsigned()))?;
    put_service(alloc, said.placed.front, said.placed.back, out)?;
    put_host(alloc, said.placed.host, out)?;
    put_field(
        alloc,
        out,
        METRIC_SINT64,
        PutBody::Varint(zigzag(said.metric)),
    )?;
    Ok(())
}

/// Appends the service, which is the two texts, one after the other.
#[tactic(auto, using(crate::proofs::Spelled::service_spelled))]
fn put_service(alloc: Global, front: &str, back: &str, out: &mut Blob) -> Result<(), Memory>
    requires { length (front.now ++ back.now) ≤ 1024 }
    ensures ok { OnOk result (out.new
        ≡ out.old ++ field_spelling SERVICE (Bytes (front.now ++ back.now))) }
    ensures err { OnErr result (IsPrefix out.old out.new) }
{
    put_tag_and_length(alloc, out, SERVICE, front.len() + back.len())?;
    out.append(alloc, front.as_bytes())?;
    out.append(alloc, back.as_bytes())?;
    Ok(())
}

/// Appends the host, where there is one.
fn put_host(alloc: Global, host: Option<&str>, out: &mut Blob) -> Result<(), Memory>
    ensures ok { OnOk result (out.new
        ≡ out.old ++ spelled (optional HOST Bytes (option_copied host.entry))) }
    ensures err { OnErr result (IsPrefix out.old out.new) }
{
    if let Some(host) = host {
        put_field(alloc, out, HOST, PutBody::Bytes(host.as_bytes()))?;
    }
    Ok(())
}

/// The unsigned number that represents the value in the field type sint64.
fn zigzag(value: i64) -> u64
    ensures { result ≡ zigzag value }
{
    if value >= 0 {
        2 * value as u64
    } else {
        2 * (-1 - value) as u64 + 1
    }
}
