//! Rows of plans. A plan is written as s-expressions, also where no configuration can be it: a stream is a name, or a
//! list of a name, of its numbers, of the sets in a map, of its children, and of a vector of the streams that get the
//! rest.

use crate::line::{RowFault, said};
use crate::reading::readable;
use ev_types::{Blob, Field, Fields, Fold, Set, Sets, Tags, Text, Value};
use pred_eval::Rule;
use sexp_read::{Form, Shape, read_forms};
use std::alloc::Global;
use std::fmt::Write;
use stream_plan::{Kind, Plan, PlanFault, Stream, Streams, check_kinds};

/// `ok` for a plan that is sound, or the path to the stream that is refused, and why.
pub fn plan_answer(alloc: Global, text: &[u8]) -> Result<Blob, RowFault> {
    let forms = readable(read_forms(alloc, text))?;
    let mut streams = Vec::new(alloc);
    read_streams(alloc, forms.as_slice(), &mut streams)?;
    match check_kinds(alloc, Plan { streams }) {
        Ok(_) => Ok(Blob::from_slice(alloc, b"ok")?),
        Err(fault) => refusal(alloc, &fault),
    }
}

fn refusal(alloc: Global, fault: &PlanFault) -> Result<Blob, RowFault> {
    let mut printed = String::new(alloc);
    if let PlanFault::Refused { path, .. } = fault {
        for number in path.as_slice() {
            write!(printed, "{number} ")?;
        }
    }
    write!(printed, "{fault}")?;
    Ok(said(printed))
}

#[cycle(streams)]
fn read_streams(alloc: Global, forms: &[Form], streams: &mut Streams) -> Result<(), RowFault> {
    for form in forms {
        streams.push(read_stream(alloc, form)?)?;
    }
    Ok(())
}

#[cycle(streams)]
fn read_stream(alloc: Global, form: &Form) -> Result<Stream, RowFault> {
    match &form.shape {
        Shape::Symbol(name) => bare_stream(alloc, name.as_str(), &[]),
        Shape::List(forms) => {
            let Some((head, parts)) = forms.split_first() else {
                return Err(RowFault::Unreadable);
            };
            let mut stream = headed_stream(alloc, head, parts)?;
            read_branches(alloc, parts, &mut stream)?;
            Ok(stream)
        }
        _ => Err(RowFault::Unreadable),
    }
}

/// Adds the streams that are among the parts of a stream to it.
#[cycle(streams)]
fn read_branches(alloc: Global, parts: &[Form], stream: &mut Stream) -> Result<(), RowFault> {
    for part in parts {
        match &part.shape {
            Shape::Number(_) | Shape::Map(_) => {}
            Shape::Vector(forms) => {
                read_streams(alloc, forms.as_slice(), &mut stream.otherwise)?;
            }
            _ => stream.children.push(read_stream(alloc, part)?)?,
        }
    }
    Ok(())
}

fn headed_stream(alloc: Global, head: &Form, parts: &[Form]) -> Result<Stream, RowFault> {
    match &head.shape {
        Shape::Symbol(name) => bare_stream(alloc, name.as_str(), parts),
        _ => Err(RowFault::Unreadable),
    }
}

/// The stream of this name with the numbers and the sets of these parts, but not with their streams.
fn bare_stream(alloc: Global, name: &str, parts: &[Form]) -> Result<Stream, RowFault> {
    let numbers = read_numbers(parts)?;
    if name == "tower" {
        return tower(alloc, numbers.count());
    }
    Ok(leaf(alloc, read_kind(alloc, name, numbers, parts)?))
}

/// The first number of a stream, and the last one after it.
#[derive(Clone, Copy)]
struct Numbers {
    first: Option<u32>,
    second: Option<u32>,
}

impl Numbers {
    fn push(&mut self, number: i64) -> Result<(), RowFault> {
        let Ok(number) = u32::try_from(number) else {
            return Err(RowFault::Unreadable);
        };
        if self.first.is_none() {
            self.first = Some(number);
        } else {
            self.second = Some(number);
        }
        Ok(())
    }

    fn count(&self) -> u32 {
        self.first.unwrap_or(1)
    }

    fn secs(&self) -> u32 {
        self.second.unwrap_or(1)
    }
}

fn read_numbers(parts: &[Form]) -> Result<Numbers, RowFault> {
    let mut numbers = Numbers {
        first: None,
        second: None,
    };
    for part in parts {
        if let Shape::Number(number) = &part.shape {
            numbers.push(*number)?;
        }
    }
    Ok(numbers)
}

/// What a stream of this name does.
fn read_kind(
    alloc: Global,
    name: &str,
    numbers: Numbers,
    parts: &[Form],
) -> Result<Kind, RowFault> {
    match name {
        "notice" => Ok(Kind::Notice(Text::from_str(alloc, "n")?)),
        "with" => Ok(Kind::With(sets_of(alloc, parts)?)),
        "default" => Ok(Kind::Default(sets_of(alloc, parts)?)),
        _ => named_kind(alloc, name, numbers).ok_or(RowFault::Unreadable),
    }
}

/// The sets in the maps of these parts: each map has a field and a value, or nothing.
fn sets_of(alloc: Global, parts: &[Form]) -> Result<Sets, RowFault> {
    let mut sets = Sets::fresh(alloc);
    for part in parts {
        if let Shape::Map(entries) = &part.shape {
            push_set(alloc, entries.as_slice(), &mut sets)?;
        }
    }
    Ok(sets)
}

fn push_set(alloc: Global, entries: &[Form], sets: &mut Sets) -> Result<(), RowFault> {
    match entries {
        [] => Ok(()),
        [field, value] => {
            let field = read_field(alloc, field)?;
            let value = read_value(alloc, value)?;
            Ok(sets.push(alloc, Set { field, value })?)
        }
        _ => Err(RowFault::Unreadable),
    }
}

fn read_field(alloc: Global, form: &Form) -> Result<Field, RowFault> {
    match &form.shape {
        Shape::Symbol(name) => Field::named(name.copy(alloc)?).ok_or(RowFault::Unreadable),
        _ => Err(RowFault::Unreadable),
    }
}

fn read_value(alloc: Global, form: &Form) -> Result<Value, RowFault> {
    match &form.shape {
        Shape::Symbol(_) => Ok(Value::Nil),
        Shape::Text(text) => Ok(Value::Text(text.copy(alloc)?)),
        Shape::Number(number) => Ok(Value::Number(*number)),
        _ => Err(RowFault::Unreadable),
    }
}

/// This many streams, each with one child but for the last.
fn tower(alloc: Global, streams: u32) -> Result<Stream, RowFault> {
    let mut top = leaf(alloc, Kind::Index);
    for _ in 1..streams {
        top = above(alloc, top)?;
    }
    Ok(top)
}

/// A stream with this child.
fn above(alloc: Global, child: Stream) -> Result<Stream, RowFault> {
    let mut stream = leaf(alloc, Kind::Sdo);
    stream.children.push(child)?;
    Ok(stream)
}

fn leaf(alloc: Global, kind: Kind) -> Stream {
    Stream {
        kind,
        children: Vec::new(alloc),
        otherwise: Vec::new(alloc),
    }
}

/// The kinds that take no memory. `never` is a `where` that no event meets.
fn named_kind(alloc: Global, name: &str, numbers: Numbers) -> Option<Kind> {
    Some(match name {
        "index" => Kind::Index,
        "sdo" => Kind::Sdo,
        "where" => Kind::Where(Rule::Always),
        "never" => Kind::Where(Rule::Never),
        "tag" => Kind::Tag(Tags::fresh(alloc)),
        "by" => Kind::By {
            fields: Fields::fresh(alloc),
            idle: numbers.first,
        },
        "changed" => Kind::Changed {
            field: Field::State,
            init: None,
        },
        "smap" => Kind::Smap(Fold::Sum),
        _ => return ranged_kind(name, numbers.count(), numbers.secs()),
    })
}

/// The kinds with a count or seconds, of which each has those that it needs.
fn ranged_kind(name: &str, count: u32, secs: u32) -> Option<Kind> {
    let field = Field::State;
    Some(match name {
        "runs" => Kind::Runs { count, field },
        "throttle" => Kind::Throttle { count, secs },
        "stable" => Kind::Stable { secs, field },
        "rollup" => Kind::Rollup { count, secs },
        "batch" => Kind::Batch { count, secs },
        "fixed-event-window" => Kind::FixedEvent { count },
        "moving-event-window" => Kind::MovingEvent { count },
        "fixed-time-window" => Kind::FixedTime { secs },
        "moving-time-window" => Kind::MovingTime { secs },
        "coalesce" => Kind::Coalesce { secs },
        _ => return None,
    })
}
