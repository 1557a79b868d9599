//! Counting the regular expressions of streams.

ghost use Rattle.std.specs.Prelude.{◌≡◌, length, min};
ghost use Rattle.list_laws.specs.Counts.{greatest};
ghost use Rattle.stream_plan.specs.Tree.{kind_tree, list_trees};
ghost use Rattle.stream_plan.specs.Ready.{kind_patterns, stream_patterns, plan_patterns};
ghost use Rattle.stream_plan.specs.Search.{opened};

use crate::{Kind, Stream};
use pred_eval::pattern_count;

/// How many regular expressions the streams and those below them have, or the greatest number where there are more.
#[cycle(count)]
pub fn stream_pattern_count(streams: &[Stream]) -> usize
    ensures { result ≡ min (length (plan_patterns (list_trees streams.now))) greatest }
{
    let mut count: usize = 0;
    for stream in streams {
        let more = count_at(stream);
        count = count.saturating_add(more);
    }
    count
}

/// How many the stream and those below it have.
#[cycle(count)]
fn count_at(stream: &Stream) -> usize
    ensures { result ≡ min (length (stream_patterns (opened stream.now))) greatest }
{
    let own = count_of_kind(&stream.kind);
    let below = stream_pattern_count(&stream.children);
    let beside = stream_pattern_count(&stream.otherwise);
    own.saturating_add(below).saturating_add(beside)
}

fn count_of_kind(kind: &Kind) -> usize
    ensures { result ≡ min (length (kind_patterns (kind_tree kind.now))) greatest }
{
    match kind {
        Kind::Where(rule) => pattern_count(rule),
        _ => 0,
    }
}
