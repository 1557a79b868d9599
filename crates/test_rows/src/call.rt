use crate::line::RowFault;
use crate::numbers::{number_of, numbers_of};
use crate::row::{Field, Row};
use command_io::Status;
use disk_port::MemDisk;
use ev_types::{Blob, Text, Texts};
use ports::{FaultLinks, MemSink, MemStore};
use pred_eval::ListPatterns;
use riemann_commands::{ArgumentsFault, run};
use script_text::{ScriptFault, read_script};
use std::alloc::Global;
use step_count::{CountLedger, Steps};

/// What a command is given, and what it leaves.
pub(crate) struct Given {
    pub store: MemStore,
    pub links: FaultLinks,
    pub disk: MemDisk,
    pub out: MemSink,
    pub err: MemSink,
    pub patterns: ListPatterns,
    pub steps: Steps<CountLedger>,
}

impl Drop for Given {
    fn drop(self) {
        let Given {
            store: _store,
            links: _links,
            disk: _disk,
            out: _out,
            err: _err,
            patterns: _patterns,
            steps: _steps,
        } = self;
    }
}

/// How many bytes a sink takes where the row does not say it.
const ROOM: u64 = 1 << 20;

/// Carries out the command of a row.
pub(crate) fn call(alloc: Global, row: &Row, given: &mut Given) -> Result<Status, RowFault> {
    let arguments = arguments_of(alloc, row)?;
    Ok(run(
        alloc,
        arguments,
        &mut given.store,
        &mut given.links,
        &mut given.disk,
        &mut given.out,
        &mut given.err,
        &mut given.patterns,
        &mut given.steps,
    ))
}

/// What the row gives its command.
pub(crate) fn given_of(alloc: Global, row: &Row) -> Result<Given, RowFault> {
    let (store, links, disk) = ports_of(alloc, row)?;
    let (out, err) = sinks_of(alloc, row)?;
    Ok(Given {
        store,
        links,
        disk,
        out,
        err,
        patterns: ListPatterns {
            refusals: 0,
            refused: Texts::fresh(alloc),
        },
        steps: Steps::fresh(CountLedger {
            forks: 0,
            entries: 0,
        }),
    })
}

fn ports_of(alloc: Global, row: &Row) -> Result<(MemStore, FaultLinks, MemDisk), RowFault> {
    let store = store_of(alloc, row)?;
    let links = links_of(alloc, row)?;
    let disk = disk_of(alloc, row)?;
    Ok((store, links, disk))
}

/// The output and the error stream.
fn sinks_of(alloc: Global, row: &Row) -> Result<(MemSink, MemSink), RowFault> {
    let room = number_of(row, "room")?.unwrap_or(ROOM);
    let out = sink_of(alloc, row, "fail out", room)?;
    let err = sink_of(alloc, row, "fail err", ROOM)?;
    Ok((out, err))
}

/// A store with the files of the row.
fn store_of(alloc: Global, row: &Row) -> Result<MemStore, RowFault> {
    let mut files = Vec::new(alloc);
    for field in &row.fields {
        if let Some(name) = field.key.as_str().strip_prefix("file ") {
            let name = Text::from_str(alloc, name)?;
            files.push((name, Blob::from_slice(alloc, field.value.as_slice())?))?;
        }
    }
    let failing = numbers_of(alloc, row, "fail reads")?;
    Ok(MemStore::fresh(alloc, files, failing))
}

/// Links that play the script of the row.
fn links_of(alloc: Global, row: &Row) -> Result<FaultLinks, RowFault> {
    let script = row.value("script").unwrap_or(b"start 0");
    let failing = numbers_of(alloc, row, "fail links")?;
    match read_script(alloc, script) {
        Ok(links) => Ok(FaultLinks::fresh(links, failing)),
        Err(ScriptFault::Memory) => Err(RowFault::Memory),
        Err(ScriptFault::Refused { line: _ }) => Err(RowFault::Unreadable),
    }
}

/// A disk whose file has the bytes of the row.
fn disk_of(alloc: Global, row: &Row) -> Result<MemDisk, RowFault> {
    let file = Blob::from_slice(alloc, row.value("disk").unwrap_or(b""))?;
    let failing = numbers_of(alloc, row, "fail disk")?;
    let stop = number_of(row, "stop disk")?;
    Ok(MemDisk::fresh(alloc, file, failing, stop)?)
}

/// An empty sink whose writes fail as the key says.
fn sink_of(alloc: Global, row: &Row, key: &str, room: u64) -> Result<MemSink, RowFault> {
    let failing = numbers_of(alloc, row, key)?;
    Ok(MemSink::fresh(alloc, room, failing)?)
}

/// The arguments of the row, or why they could not be read.
fn arguments_of(alloc: Global, row: &Row) -> Result<Result<Vec<Text>, ArgumentsFault>, RowFault> {
    match row.first("fault") {
        Some(field) => match field.value.as_slice() {
            b"NotUtf8" => Ok(Err(ArgumentsFault::NotUtf8)),
            b"Memory" => Ok(Err(ArgumentsFault::Memory)),
            _ => Err(field.unread("the fault is not known")),
        },
        None => Ok(Ok(words_of(alloc, row)?)),
    }
}

fn words_of(alloc: Global, row: &Row) -> Result<Vec<Text>, RowFault> {
    let mut words = Vec::new(alloc);
    for field in &row.fields {
        push_words(alloc, field, &mut words)?;
    }
    Ok(words)
}

/// Pushes the argument of the field, or those that blanks separate in it.
fn push_words(alloc: Global, field: &Field, words: &mut Vec<Text>) -> Result<(), RowFault> {
    match field.key.as_str() {
        "arg" => words.push(Text::from_str(alloc, field.text()?)?)?,
        "args" => {
            for word in field.text()?.split(' ') {
                words.push(Text::from_str(alloc, word)?)?;
            }
        }
        _ => {}
    }
    Ok(())
}

/// What a command of these arguments leaves, which has the bytes as a file `f`, and its status.
pub(crate) fn call_with(
    alloc: Global,
    arguments: &str,
    bytes: &[u8],
) -> Result<(Given, Status), RowFault> {
    let mut fields = Vec::new(alloc);
    fields.push(field_of(alloc, "args", arguments.as_bytes())?)?;
    fields.push(field_of(alloc, "file f", bytes)?)?;
    let row = Row {
        line: 0,
        fields,
        unread: None,
    };
    let mut given = given_of(alloc, &row)?;
    let status = call(alloc, &row, &mut given)?;
    Ok((given, status))
}

fn field_of(alloc: Global, key: &str, value: &[u8]) -> Result<Field, RowFault> {
    let key = String::from_str(alloc, key)?;
    let mut bytes = Vec::new(alloc);
    bytes.extend_from_slice(value)?;
    Ok(Field {
        line: 0,
        key,
        value: bytes,
    })
}
