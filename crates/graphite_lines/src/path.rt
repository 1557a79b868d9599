//! Paths, and the host in them.

ghost use Rattle.std.specs.Prelude.{◌≡◌, ◌≤◌, true, false, length, MatchOption};
ghost use Rattle.std.specs.List.{list_all};
ghost use Rattle.std.specs.Option.{ForSome};
ghost use Rattle.graphite_lines.specs.Lines.{parts_of};
ghost use Rattle.graphite_lines.specs.Spans.{IsPlaced, IsSpan};
ghost use Rattle.graphite_lines.specs.Words.{is_path, is_path_byte};

use crate::cut::find_byte;
use std::str;

const DOT: u8 = b'.';

const DELETE: u8 = 127;

/// The most bytes of a path.
const PATH_LIMIT: usize = 1024;

/// A path, cut into its host and its service.
#[derive(Clone, Copy)]
pub(crate) struct Placed<'a> {
    pub(crate) host: Option<&'a str>,
    /// The service is this text, and then the other one.
    pub(crate) front: &'a str,
    pub(crate) back: &'a str,
}

/// The path that a word is.
#[tactic(auto, using(crate::proofs::PathLaws::path_of_many, crate::proofs::PathLaws::path_of_other_bytes))]
pub(crate) fn read_path(word: &[u8]) -> Option<&str>
    ensures { MatchOption result (is_path word.now ≡ false)
        (λ path. (is_path word.now ≡ true) × (path.now ≡ word.now)) }
{
    if word.len() > PATH_LIMIT || !are_path_bytes(word) {
        return None;
    }
    match str::from_utf8(word) {
        Ok(path) => Some(path),
        Err(_) => None,
    }
}

fn are_path_bytes(word: &[u8]) -> bool
    ensures { result ≡ list_all is_path_byte word.now }
{
    word.iter().all(|byte| is_path_byte(*byte))
}

fn is_path_byte(byte: u8) -> bool
    ensures { result ≡ is_path_byte byte }
{
    byte >= b' ' && byte != DELETE
}

/// The host and the service that a path gives.
pub(crate) fn place(path: &str, host_part: Option<u32>) -> Placed<'_>
    requires { ForSome host_part (λ part. (1 ≤ part) × (part ≤ 64)) }
    ensures { IsPlaced host_part path.now result }
{
    let whole = Placed {
        host: None,
        front: path,
        back: "",
    };
    let Some(number) = host_part else {
        return whole;
    };
    match part_span(path.as_bytes(), number) {
        Some((start, end)) => Placed {
            host: Some(&path[start..end]),
            front: &path[..start],
            back: &path[end + 1..],
        },
        None => whole,
    }
}

/// Where the part of this number, from 1, starts and ends in a path, if another part comes after it.
fn part_span(path: &[u8], number: u32) -> Option<(usize, usize)>
    requires { 1 ≤ number }
    ensures { MatchOption result (length (parts_of path.now) ≤ number)
        (λ span. IsSpan path.now number span.0 span.1) }
{
    let Some(dot) = find_byte(DOT, path) else {
        return None;
    };
    if number == 1 {
        return Some((0, dot));
    }
    match part_span(&path[dot + 1..], number - 1) {
        Some((start, end)) => Some((dot + 1 + start, dot + 1 + end)),
        None => None,
    }
}
