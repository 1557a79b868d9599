use crate::sockets::listen_on;
use ev_types::Memory;
use ports::{
    Links, ListenAnswer, MemSink, PIECE_LIMIT, ScriptLinks, SendAnswer, Turn, Wants, What,
};
use script_text::{read_script, write_link_lines};
use std::alloc::{AllocError, Global};
use std::str;

/// Texts that are sent, each with the number of its link. No text is not sent.
type Sent<'a> = &'a [(u64, &'a str)];

/// A script, how many of its turns are played, and what is sent after them. Then the first reading of the clock, the
/// turns, the answers to what was sent and the bytes that link 7 took. Last are the lines of the links.
type Row<'a> = (&'a str, usize, Sent<'a>, &'a str, &'a str);

const NOTHING: Sent<'static> = &[];

const THREE: Sent<'static> = &[(7, "ab"), (7, "cd"), (7, "e")];

const ONE: Sent<'static> = &[(7, "a")];

const TURNS: &[Row<'static>] = &[
    (
        "start 3\n5 open 7\n#\n8 room 7\n06 end 7\n6 broken 7",
        4,
        NOTHING,
        "3;5 Opened { link: 7 };8 Room { link: 7 };6 Ended { link: 7 };6 Broken { link: 7 };",
        "link 7\n",
    ),
    (
        "start 3\n9 read 7 6aFf\n9 idle",
        2,
        NOTHING,
        "3;9 Read { link: 7, count: 2 }6aff;9 Idle;",
        "",
    ),
    ("start 3", 2, NOTHING, "3;3 Stopped;3 Stopped;", ""),
    (
        "start 3\n5 idle\ntake 1 2\nfail 1\n",
        2,
        NOTHING,
        "3;5 Idle;5 Stopped;",
        "",
    ),
    (
        "start 0\n0 read 7 006aFfAb",
        1,
        NOTHING,
        "0;0 Read { link: 7, count: 4 }006affab;",
        "",
    ),
    ("# s\nstart 42\n50 idle", 0, NOTHING, "42;", ""),
];

const SENDS: &[Row<'static>] = &[
    ("start 0", 0, THREE, "0;2;2;1;6162636465", ""),
    (
        "start 0\ntake 7 3\n0 idle",
        1,
        THREE,
        "0;0 Idle;2;1;later;616263",
        "",
    ),
    (
        "start 0\ntake 7 9\ntake 7 1\n0 idle",
        1,
        THREE,
        "0;0 Idle;1;later;later;61",
        "",
    ),
    (
        "start 0\ntake 7 0\n0 idle",
        1,
        THREE,
        "0;0 Idle;later;later;later;",
        "",
    ),
    (
        "start 0\ntake 8 0\n0 idle",
        1,
        THREE,
        "0;0 Idle;2;2;1;6162636465",
        "",
    ),
    (
        "start 0\nfail 7\n0 idle",
        1,
        THREE,
        "0;0 Idle;failed;2;1;636465",
        "",
    ),
    (
        "start 0\ntake 7 0\nfail 7\n0 idle",
        1,
        THREE,
        "0;0 Idle;failed;later;later;",
        "",
    ),
    (
        "start 0\ntake 7 0\n0 idle\ntake 7 4\n0 room 7",
        2,
        THREE,
        "0;0 Idle;0 Room { link: 7 };2;2;later;61626364",
        "",
    ),
    // Lines take effect before the next turn.
    ("start 0\n0 idle\ntake 7 0\n0 idle", 0, ONE, "0;1;61", ""),
    (
        "start 0\n0 idle\ntake 7 0\n0 idle",
        1,
        ONE,
        "0;0 Idle;1;61",
        "",
    ),
    (
        "start 0\n0 idle\ntake 7 0\n0 idle",
        2,
        ONE,
        "0;0 Idle;0 Idle;later;",
        "",
    ),
];

const LINES: &[Row<'static>] = &[
    (
        "start 0\n0 idle\n0 read 1 00",
        0,
        &[(1, "a"), (2, "b")],
        "0;1;1;",
        "",
    ),
    (
        "start 0\n0 open 7",
        0,
        &[(7, ""), (7, "")],
        "0;",
        "link 7\n",
    ),
    (
        "start 0\n0 open 7",
        0,
        &[(7, "oO"), (8, "a")],
        "0;2;1;6f4f",
        "link 7 6f4f\n",
    ),
    (
        "start 0\n0 open 7",
        0,
        &[(7, "o"), (7, "\n")],
        "0;1;1;6f0a",
        "link 7 6f0a\n",
    ),
    (
        "start 0\n0 open 10\n0 open 9\n0 open 10",
        0,
        &[(9, "a"), (10, "b")],
        "0;1;1;",
        "link 9 61\nlink 10 62\n",
    ),
    (
        "start 0\n0 end 3\n0 open 18446744073709551615\n0 open 0",
        0,
        &[(3, "a"), (0, "b")],
        "0;1;1;",
        "link 0 62\nlink 18446744073709551615\n",
    ),
];

/// Appends the first reading of the clock.
fn put_start(alloc: Global, links: &mut ScriptLinks, out: &mut String) -> Result<(), AllocError> {
    match listen_on(alloc, links, "h:1") {
        ListenAnswer::Ready { secs } => write!(out, "{secs};"),
        _ => Ok(()),
    }
}

/// The next turn, where the buffer is one for a read.
fn next_turn(alloc: Global, links: &mut ScriptLinks, buf: &mut [u8]) -> Option<Turn> {
    if buf.len() != PIECE_LIMIT {
        return None;
    }
    Some(links.next(alloc, &Wants::fresh(alloc), buf))
}

/// Plays turns, and appends of each its second, what happened and the bytes that came.
fn put_turns(
    alloc: Global,
    links: &mut ScriptLinks,
    count: usize,
    out: &mut String,
) -> Result<(), AllocError> {
    let mut buf = vec![in alloc; 0; PIECE_LIMIT]?;
    for _ in 0..count {
        if let Some(turn) = next_turn(alloc, links, buf.as_mut_slice()) {
            put_turn(alloc, turn, buf.as_slice(), out)?;
        }
    }
    Ok(())
}

fn put_turn(alloc: Global, turn: Turn, buf: &[u8], out: &mut String) -> Result<(), AllocError> {
    let (secs, what) = (turn.secs, turn.what);
    write!(out, "{secs} {what:?}")?;
    if let What::Read { link: _, count } = what {
        let bytes = hex::encode(alloc, buf.get(..count).unwrap_or(b""))?;
        out.push_str(bytes.as_str())?;
    }
    out.push_str(";")
}

/// Sends the texts, and appends the answers and the bytes that link 7 took.
fn put_sends(
    alloc: Global,
    links: &mut ScriptLinks,
    sent: Sent<'_>,
    out: &mut String,
) -> Result<(), AllocError> {
    for (link, text) in sent {
        put_send(alloc, links, *link, text.as_bytes(), out)?;
    }
    let taken = hex::encode(alloc, links.taken(7).as_slice())?;
    out.push_str(taken.as_str())
}

fn put_send(
    alloc: Global,
    links: &mut ScriptLinks,
    link: u64,
    bytes: &[u8],
    out: &mut String,
) -> Result<(), AllocError> {
    if bytes.is_empty() {
        return Ok(());
    }
    match links.send(alloc, link, bytes) {
        SendAnswer::Took { count } => write!(out, "{count};"),
        SendAnswer::Later => out.push_str("later;"),
        SendAnswer::Failed => out.push_str("failed;"),
        SendAnswer::Memory => out.push_str("memory;"),
    }
}

/// Appends what the links of a row answer.
fn put_answers(
    alloc: Global,
    links: &mut ScriptLinks,
    row: &Row<'_>,
    out: &mut String,
) -> Result<(), AllocError> {
    put_start(alloc, links, out)?;
    put_turns(alloc, links, row.1, out)?;
    put_sends(alloc, links, row.2, out)
}

/// Appends the lines of the links. Answers whether they could be written.
fn put_lines(alloc: Global, links: &ScriptLinks, out: &mut String) -> bool {
    match MemSink::fresh(alloc, 99, Vec::new(alloc)) {
        Ok(mut sink) => {
            let written = write_link_lines(alloc, links, &mut sink).is_ok();
            let lines = str::from_utf8(sink.text.as_slice()).unwrap_or("not UTF-8");
            written && out.push_str(lines).is_ok()
        }
        Err(Memory) => false,
    }
}

/// What comes of a row: what its links answer, and their lines.
#[derive(Drop)]
struct Played {
    answers: String,
    lines: String,
}

impl Played {
    /// Plays the row. Answers whether its script could be read and played.
    fn play(&mut self, alloc: Global, row: &Row<'_>) -> bool {
        match read_script(alloc, row.0.as_bytes()) {
            Ok(mut links) => {
                put_answers(alloc, &mut links, row, &mut self.answers).is_ok()
                    && put_lines(alloc, &links, &mut self.lines)
            }
            Err(_) => false,
        }
    }
}

#[test]
fn links_do_what_their_script_says(rt: HostRuntime) {
    for rows in [TURNS, SENDS, LINES] {
        for row in rows {
            let mut played = Played {
                answers: String::new(rt.alloc()),
                lines: String::new(rt.alloc()),
            };
            let script = row.0;
            assert!(rt; played.play(rt.alloc(), row), "{script}");
            let (answers, lines) = (played.answers.as_str(), played.lines.as_str());
            assert!(rt; answers == row.3, "{script}: {answers}");
            assert!(rt; lines == row.4, "{script}: {lines}");
        }
    }
}
