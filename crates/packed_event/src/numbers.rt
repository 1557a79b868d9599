//! The ttl, and the numbers that an event ends with.

ghost use Rattle.std.specs.Prelude.{◌≡◌};
ghost use Rattle.std.specs.Int.{w32, w64};
ghost use Rattle.std.specs.Option.{option_map};
ghost use Rattle.riemann_msg.specs.Value.{unzigzag};
ghost use Rattle.packed_event.specs.Reading.{Gives, int64_part, micros_part, number_part, numbers_part, optional, sint64_part, ttl_part};
ghost use Rattle.packed_event.specs.Unpacking.{numbers_read};

use crate::body::{eight, four, int64, ttl};
use crate::varint::varint;

/// The tags of the fields.
const TTL: u8 = 0x45;

const TIME_MICROS: u8 = 0x50;

const METRIC_SINT64: u8 = 0x68;

const METRIC_D: u8 = 0x71;

const METRIC_F: u8 = 0x7d;

/// The ttl, if the bytes begin with one, and the bytes after it.
#[tactic(auto, unfolding(crate::specs::Reading::optional))]
#[inline(always)]
pub(crate) fn optional_ttl(bytes: &[u8]) -> Option<(Option<u32>, &[u8])>
    ensures { Gives (λ read. (read.0, read.1.now)) result (optional 69 ttl_part bytes.now) }
{
    match bytes {
        [TTL, rest @ ..] => {
            let (ttl, rest) = ttl(rest)?;
            Some((Some(ttl), rest))
        }
        _ => Some((None, bytes)),
    }
}

/// The bytes after the ttl, if the bytes begin with one, and else all of them. It is not tested.
#[tactic(auto, unfolding(crate::specs::Reading::optional))]
#[inline(always)]
pub(crate) fn after_ttl(bytes: &[u8]) -> Option<&[u8]>
    ensures { Gives (λ rest. rest.now) result
        (option_map (λ read. read.1) (optional 69 (number_part w32) bytes.now)) }
{
    match bytes {
        [TTL, rest @ ..] => {
            let (_, rest) = four(rest)?;
            Some(rest)
        }
        _ => Some(bytes),
    }
}

/// The numbers that an event ends with.
#[derive(Clone, Copy)]
pub(crate) struct Numbers {
    pub(crate) micros: Option<i64>,
    pub(crate) metric: Option<i64>,
    pub(crate) raw_d: Option<u64>,
    pub(crate) raw_f: Option<u32>,
}

/// The last fields of an event with this time, and the bytes after them: the time in microseconds, and the metrics.
#[tactic(auto, unfolding(crate::specs::Reading::numbers_part))]
#[inline(always)]
pub(crate) fn numbers_at(time: i64, bytes: &[u8]) -> Option<(Numbers, &[u8])>
    ensures { Gives (λ read. (numbers_read read.0, read.1.now)) result
        (numbers_part time bytes.now) }
{
    let (micros, rest) = optional_micros(time, bytes)?;
    let (metric, rest) = optional_metric(rest)?;
    let (raw_d, rest) = optional_double(rest)?;
    let (raw_f, rest) = optional_float(rest)?;
    let numbers = Numbers {
        micros,
        metric,
        raw_d,
        raw_f,
    };
    Some((numbers, rest))
}

/// The time in microseconds, if the bytes begin with it, and the bytes after it. It has to lie in the second `time`.
#[tactic(auto, unfolding(crate::specs::Reading::micros_part, crate::specs::Reading::optional))]
#[inline(always)]
fn optional_micros(time: i64, bytes: &[u8]) -> Option<(Option<i64>, &[u8])>
    ensures { Gives (λ read. (read.0, read.1.now)) result
        (optional 80 (micros_part time) bytes.now) }
{
    let [TIME_MICROS, rest @ ..] = bytes else {
        return Some((None, bytes));
    };
    let (micros, rest) = int64(rest)?;
    if micros.div_euclid(1_000_000) != time {
        return None;
    }
    Some((Some(micros), rest))
}

/// The bytes after the time in microseconds, if the bytes begin with it, and else all of them. It is not tested.
#[tactic(auto, unfolding(crate::specs::Reading::optional))]
#[inline(always)]
pub(crate) fn after_micros(bytes: &[u8]) -> Option<&[u8]>
    ensures { Gives (λ rest. rest.now) result
        (option_map (λ read. read.1) (optional 80 int64_part bytes.now)) }
{
    match bytes {
        [TIME_MICROS, rest @ ..] => {
            let (_, rest) = int64(rest)?;
            Some(rest)
        }
        _ => Some(bytes),
    }
}

/// The metric, if the bytes begin with it, and the bytes after it.
#[tactic(auto, unfolding(crate::specs::Reading::sint64_part, crate::specs::Reading::optional))]
#[inline(always)]
pub(crate) fn optional_metric(bytes: &[u8]) -> Option<(Option<i64>, &[u8])>
    ensures { Gives (λ read. (read.0, read.1.now)) result (optional 104 sint64_part bytes.now) }
{
    let [METRIC_SINT64, rest @ ..] = bytes else {
        return Some((None, bytes));
    };
    let (value, rest) = varint(rest)?;
    Some((Some(unzigzag(value)), rest))
}

/// The signed number that `value` represents in zigzag form.
#[inline(always)]
fn unzigzag(value: u64) -> i64
    ensures { result ≡ unzigzag value }
{
    let half = (value / 2) as i64;
    if value % 2 == 0 { half } else { -1 - half }
}

/// The bits of a metric that came as a double, if the bytes begin with them, and the bytes after them.
#[tactic(auto, unfolding(crate::specs::Reading::optional))]
#[inline(always)]
fn optional_double(bytes: &[u8]) -> Option<(Option<u64>, &[u8])>
    ensures { Gives (λ read. (read.0, read.1.now)) result
        (optional 113 (number_part w64) bytes.now) }
{
    let [METRIC_D, rest @ ..] = bytes else {
        return Some((None, bytes));
    };
    let (bits, rest) = eight(rest)?;
    Some((Some(bits), rest))
}

/// The bits of a metric that came as a float, if the bytes begin with them, and the bytes after them.
#[tactic(auto, unfolding(crate::specs::Reading::optional))]
#[inline(always)]
fn optional_float(bytes: &[u8]) -> Option<(Option<u32>, &[u8])>
    ensures { Gives (λ read. (read.0, read.1.now)) result
        (optional 125 (number_part w32) bytes.now) }
{
    let [METRIC_F, rest @ ..] = bytes else {
        return Some((None, bytes));
    };
    let (bits, rest) = four(rest)?;
    Some((Some(bits), rest))
}
