ghost use Rattle.std.specs.Prelude.{◌≡◌, ◌<◌, None, IfOk, IsOk, option_copied};
ghost use Rattle.std.specs.Int.{w64, saturate_signed};
ghost use Rattle.stream_meaning.specs.Images.{folded, measured, metric_of, sum_of_metrics, sum_event, count_event, least_event, greatest_event, with_metric};
ghost use Rattle.flow_streams.specs.Fold.{first_of, lesser_of, greater_of};

use ev_types::{Event, Events, Fold, Memory};
use std::alloc::Global;

/// The one event that is made of these, or `None` where the fold makes none: the first with the sum of all metrics,
/// within 64 signed bits, the first with the least or the greatest metric, or the first with the number of all. A sum,
/// a least and a greatest metric are those of the events that have one. It takes memory for the event alone.
pub fn apply_fold(alloc: Global, fold: Fold, events: &Events) -> Result<Option<Event>, Memory>
    ensures made { IfOk result (λ made. made ≡ folded fold events.now) }
    ensures memory { folded fold events.now ≡ None → IsOk result }
{
    let events = events.as_slice();
    match fold {
        Fold::Sum => sum_event(alloc, events),
        Fold::Minimum => copy_event(alloc, least_event(events)),
        Fold::Maximum => copy_event(alloc, greatest_event(events)),
        Fold::Count => count_event(alloc, events),
    }
}

fn copy_event(alloc: Global, event: Option<&Event>) -> Result<Option<Event>, Memory>
    ensures made { IfOk result (λ made. made ≡ option_copied event.entry) }
    ensures memory { option_copied event.entry ≡ None → IsOk result }
{
    match event {
        Some(event) => Ok(Some(event.copy(alloc)?)),
        None => Ok(None),
    }
}

/// A copy of the event with a metric that was computed.
fn copy_with_metric(alloc: Global, event: &Event, metric: i64) -> Result<Event, Memory>
    ensures { IfOk result (λ made. made ≡ with_metric metric event.now) }
{
    let mut made = event.copy(alloc)?;
    made.metric = Some(metric);
    made.raw_d = None;
    made.raw_f = None;
    Ok(made)
}

fn count_event(alloc: Global, events: &[Event]) -> Result<Option<Event>, Memory>
    ensures made { IfOk result (λ made. made ≡ count_event events.now) }
    ensures memory { count_event events.now ≡ None → IsOk result }
{
    match events.first() {
        Some(first) => {
            let made = copy_with_metric(alloc, first, events.len() as i64)?;
            Ok(Some(made))
        }
        None => Ok(None),
    }
}

fn sum_event(alloc: Global, events: &[Event]) -> Result<Option<Event>, Memory>
    ensures made { IfOk result (λ made. made ≡ sum_event (measured events.now)) }
    ensures memory { sum_event (measured events.now) ≡ None → IsOk result }
{
    match first_measured(events) {
        Some(first) => {
            let made = copy_with_metric(alloc, first, clamp(sum_of_metrics(events)))?;
            Ok(Some(made))
        }
        None => Ok(None),
    }
}

fn first_measured(events: &[Event]) -> Option<&Event>
    ensures { option_copied result ≡ first_of (measured events.now) }
{
    for event in events {
        if event.metric.is_some() {
            return Some(event);
        }
    }
    None
}

/// The number within 64 signed bits that is nearest.
fn clamp(number: i128) -> i64
    ensures { result ≡ saturate_signed w64 number }
{
    number.clamp(i128::from(i64::MIN), i128::from(i64::MAX)) as i64
}

fn sum_of_metrics(events: &[Event]) -> i128
    ensures { result ≡ sum_of_metrics (measured events.now) }
{
    let mut sum = 0;
    for event in events {
        sum += i128::from(metric_of(event));
    }
    sum
}

/// The event's metric, or 0 where it has none.
fn metric_of(event: &Event) -> i64
    ensures { result ≡ metric_of event.now }
{
    event.metric.unwrap_or(0)
}

fn least_event(events: &[Event]) -> Option<&Event>
    ensures { option_copied result ≡ least_event (measured events.now) }
{
    let mut least = None;
    for event in events {
        least = lesser(least, event);
    }
    least
}

fn greatest_event(events: &[Event]) -> Option<&Event>
    ensures { option_copied result ≡ greatest_event (measured events.now) }
{
    let mut greatest = None;
    for event in events {
        greatest = greater(greatest, event);
    }
    greatest
}

/// The event with the lesser metric, the earlier where they are equal.
fn lesser<'a>(least: Option<&'a Event>, event: &'a Event) -> Option<&'a Event>
    ensures { option_copied result ≡ lesser_of (option_copied least.entry) event.now }
{
    let Some(metric) = event.metric else {
        return least;
    };
    match least {
        Some(earlier) if metric_of(earlier) <= metric => least,
        _ => Some(event),
    }
}

/// The event with the greater metric, the earlier where they are equal.
fn greater<'a>(greatest: Option<&'a Event>, event: &'a Event) -> Option<&'a Event>
    ensures { option_copied result ≡ greater_of (option_copied greatest.entry) event.now }
{
    let Some(metric) = event.metric else {
        return greatest;
    };
    match greatest {
        Some(earlier) if metric <= metric_of(earlier) => greatest,
        _ => Some(event),
    }
}
