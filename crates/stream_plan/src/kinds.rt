//! What each kind of stream takes and passes on, which streams may follow it, and the ranges of its numbers.

ghost use Rattle.std.specs.Prelude.{◌≡◌};
ghost use Rattle.stream_plan.specs.Tree.{kind_tree};
ghost use Rattle.stream_plan.specs.Kinds.{takes, is_by, has_idle, input_below, passes_on, may_have_children, may_have_otherwise, is_in_range, is_count, is_secs, is_idle};

use crate::Kind;
use ev_types::all_fit;

/// The greatest count of a stream. The least is 1.
pub const MAX_COUNT: u32 = 1_000_000;

/// The most seconds of a stream, a week. The fewest are 1.
pub const MAX_SECS: u32 = 604_800;

/// What a stream is given.
#[derive(Clone, Copy, PartialEq, Eq)]
pub(crate) enum Input {
    Nothing,
    /// Events one by one.
    Event,
    /// Vectors of events.
    Vector,
}

/// What a stream is given, and whether it is in the forks of a `By` above it.
#[derive(Clone, Copy, PartialEq, Eq)]
pub(crate) struct Flow {
    pub(crate) input: Input,
    pub(crate) in_fork: bool,
}

impl Kind {
    /// Whether a stream of this kind takes such items.
    pub(crate) fn takes(&self, input: Input) -> bool
        ensures { result ≡ takes (kind_tree self.now) input }
    {
        match input {
            Input::Nothing => false,
            Input::Event => !matches!(self, Kind::Smap(_)),
            Input::Vector => matches!(self, Kind::Notice(_) | Kind::Sdo | Kind::Smap(_)),
        }
    }

    /// What the streams that follow a stream of this kind are given.
    pub(crate) fn passes_on(&self, flow: Flow) -> Flow
        ensures { result ≡ passes_on (kind_tree self.now) flow }
    {
        Flow {
            input: self.input_below(flow.input),
            in_fork: self.is_by() || flow.in_fork,
        }
    }

    /// What a stream of this kind passes on of such items.
    fn input_below(&self, input: Input) -> Input
        ensures { result ≡ input_below (kind_tree self.now) input }
    {
        match self {
            Kind::Index | Kind::Notice(_) => Input::Nothing,
            Kind::Sdo => input,
            Kind::Rollup { .. }
            | Kind::Batch { .. }
            | Kind::FixedEvent { .. }
            | Kind::MovingEvent { .. }
            | Kind::FixedTime { .. }
            | Kind::MovingTime { .. }
            | Kind::Coalesce { .. } => Input::Vector,
            _ => Input::Event,
        }
    }

    fn is_by(&self) -> bool
        ensures { result ≡ is_by (kind_tree self.now) }
    {
        matches!(self, Kind::By { .. })
    }

    /// Whether forks of this kind end.
    pub(crate) fn has_idle(&self) -> bool
        ensures { result ≡ has_idle (kind_tree self.now) }
    {
        match self {
            Kind::By { idle, .. } => idle.is_some(),
            _ => false,
        }
    }

    /// Whether streams may follow a stream of this kind.
    pub fn may_have_children(&self) -> bool
        ensures { result ≡ may_have_children (kind_tree self.now) }
    {
        !matches!(self, Kind::Index | Kind::Notice(_))
    }

    /// Whether streams may be given what a stream of this kind does not pass on to its children.
    pub(crate) fn may_have_otherwise(&self) -> bool
        ensures { result ≡ may_have_otherwise (kind_tree self.now) }
    {
        matches!(self, Kind::Where(_))
    }

    /// Whether the numbers and the sets of the kind are in their ranges.
    pub(crate) fn is_in_range(&self) -> bool
        ensures { result ≡ is_in_range (kind_tree self.now) }
    {
        match self {
            Kind::With(sets) | Kind::Default(sets) => all_fit(sets),
            Kind::By { idle, .. } => is_idle(*idle),
            Kind::Throttle { count, secs }
            | Kind::Rollup { count, secs }
            | Kind::Batch { count, secs } => is_count(*count) && is_secs(*secs),
            Kind::Runs { count, .. } | Kind::FixedEvent { count } | Kind::MovingEvent { count } =>
                is_count(*count),
            Kind::Stable { secs, .. }
            | Kind::FixedTime { secs }
            | Kind::MovingTime { secs }
            | Kind::Coalesce { secs } => is_secs(*secs),
            _ => true,
        }
    }
}

fn is_count(count: u32) -> bool
    ensures { result ≡ is_count count }
{
    1 <= count && count <= MAX_COUNT
}

fn is_secs(secs: u32) -> bool
    ensures { result ≡ is_secs secs }
{
    1 <= secs && secs <= MAX_SECS
}

fn is_idle(idle: Option<u32>) -> bool
    ensures { result ≡ is_idle idle }
{
    match idle {
        Some(secs) => is_secs(secs),
        None => true,
    }
}
