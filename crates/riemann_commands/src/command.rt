ghost use Rattle.std.specs.Prelude.{◌≡◌, ◌≢◌, ◌↔◌, ◌≤◌, [], ◌∷◌, codes, length, IsTrue, MatchOption};
ghost use Rattle.query_lang.specs.declared.read.TheConstants.{MAX_BYTES};
ghost use Rattle.riemann_commands.specs.Commands.{IsCommandOf};
ghost use Rattle.riemann_commands.specs.Words.{IsUsage, load_words};

use command_client::MAX_BYTES;
use command_serve::EVENT_LIMIT;
use ev_types::Text;
use script_text::read_number;

/// A command, with the names of its files.
#[derive(Clone, Copy)]
pub(crate) enum Command<'a> {
    Feed {
        config: &'a Text,
        file: &'a Text,
    },
    Check {
        config: &'a Text,
    },
    Replay {
        config: &'a Text,
        script: &'a Text,
    },
    /// It takes at most `turns` turns.
    Serve {
        config: &'a Text,
        turns: u64,
    },
    Load {
        config: &'a Text,
        count: u64,
        start: u64,
    },
    Test {
        config: &'a Text,
        tests: &'a Text,
    },
    /// The host is the part of this number of a path, from 1 to 64, if there is a number.
    Graphite {
        file: &'a Text,
        host_part: Option<u32>,
    },
    /// It takes at most `turns` turns.
    Send {
        address: &'a Text,
        file: &'a Text,
        turns: u64,
    },
    /// The same. The text has at most [`MAX_BYTES`] bytes.
    Query {
        address: &'a Text,
        text: &'a Text,
        turns: u64,
    },
    Record {
        config: &'a Text,
        journal: &'a Text,
    },
    Resume {
        journal: &'a Text,
    },
}

/// The greatest number of the part of a path that is the host.
const MOST_HOST_PART: u64 = 64;

/// The most digits of that number.
const HOST_PART_DIGITS: usize = 2;

/// The command that matches the arguments.
pub(crate) fn command_of<'a>(words: &'a [Text]) -> Option<Command<'a>>
    ensures { MatchOption result (IsUsage words.now) (λ command. IsCommandOf words.now command) }
{
    match words {
        [command, config] => command_on_one(command, config),
        [command, config, file] => command_on_two(command, config, file),
        [command, config, second, third] => command_on_three(command, config, second, third),
        [command, address, second, option, number] => {
            command_on_four(command, address, second, option, number)
        }
        _ => None,
    }
}

/// The command with one argument after its name.
fn command_on_one<'a>(command: &'a Text, name: &'a Text) -> Option<Command<'a>>
    ensures { MatchOption result (IsUsage (command.now ∷ (name.now ∷ [])))
        (λ found. IsCommandOf (command.now ∷ (name.now ∷ [])) found) }
{
    if command.is(b"check") {
        Some(Command::Check { config: name })
    } else if command.is(b"serve") {
        Some(Command::Serve {
            config: name,
            turns: u64::MAX,
        })
    } else if command.is(b"graphite") {
        Some(Command::Graphite {
            file: name,
            host_part: None,
        })
    } else if command.is(b"resume") {
        Some(Command::Resume { journal: name })
    } else {
        None
    }
}

/// The command with two arguments after its name.
fn command_on_two<'a>(command: &'a Text, first: &'a Text, second: &'a Text) -> Option<Command<'a>>
    ensures { MatchOption result (IsUsage (command.now ∷ (first.now ∷ (second.now ∷ []))))
        (λ found. IsCommandOf (command.now ∷ (first.now ∷ (second.now ∷ []))) found) }
{
    if command.is(b"feed") {
        Some(Command::Feed {
            config: first,
            file: second,
        })
    } else if command.is(b"replay") {
        Some(Command::Replay {
            config: first,
            script: second,
        })
    } else if command.is(b"test") {
        Some(Command::Test {
            config: first,
            tests: second,
        })
    } else if command.is(b"record") {
        Some(Command::Record {
            config: first,
            journal: second,
        })
    } else {
        client_on_two(command, first, second)
    }
}

/// The command of a client with two arguments after its name.
fn client_on_two<'a>(command: &'a Text, address: &'a Text, second: &'a Text) -> Option<Command<'a>>
    requires feed { command.now ≢ codes "feed" }
    requires replay { command.now ≢ codes "replay" }
    requires test { command.now ≢ codes "test" }
    requires recording { command.now ≢ codes "record" }
    ensures { MatchOption result (IsUsage (command.now ∷ (address.now ∷ (second.now ∷ []))))
        (λ found. IsCommandOf (command.now ∷ (address.now ∷ (second.now ∷ []))) found) }
{
    let turns = u64::MAX;
    if command.is(b"send") {
        Some(Command::Send {
            address,
            file: second,
            turns,
        })
    } else if command.is(b"query") && is_short(second) {
        Some(Command::Query {
            address,
            text: second,
            turns,
        })
    } else {
        None
    }
}

/// The command with three arguments after its name.
fn command_on_three<'a>(
    command: &'a Text,
    config: &'a Text,
    second: &'a Text,
    third: &'a Text,
) -> Option<Command<'a>>
    ensures { MatchOption result
        (IsUsage (command.now ∷ (config.now ∷ (second.now ∷ (third.now ∷ [])))))
        (λ found. IsCommandOf
        (command.now ∷ (config.now ∷ (second.now ∷ (third.now ∷ [])))) found) }
{
    if command.is(b"load") {
        return load_of(config, second, third);
    }
    if command.is(b"graphite") {
        return graphite_of(command, config, second, third);
    }
    if !command.is(b"serve") || !second.is(b"--turns") {
        return None;
    }
    match read_number(third.as_bytes()) {
        Some(turns) => Some(Command::Serve { config, turns }),
        None => None,
    }
}

/// The command with four arguments after its name, which is one of a client.
fn command_on_four<'a>(
    command: &'a Text,
    address: &'a Text,
    second: &'a Text,
    option: &'a Text,
    number: &'a Text,
) -> Option<Command<'a>>
    ensures { MatchOption result (IsUsage
        (command.now ∷ (address.now ∷ (second.now ∷ (option.now ∷ (number.now ∷ []))))))
        (λ found. IsCommandOf
        (command.now ∷ (address.now ∷ (second.now ∷ (option.now ∷ (number.now ∷ []))))) found) }
{
    if !option.is(b"--turns") {
        return None;
    }
    let turns = read_number(number.as_bytes())?;
    if command.is(b"send") {
        Some(Command::Send {
            address,
            file: second,
            turns,
        })
    } else if command.is(b"query") && is_short(second) {
        Some(Command::Query {
            address,
            text: second,
            turns,
        })
    } else {
        None
    }
}

/// Whether the text is within the limit of a query.
fn is_short(text: &Text) -> bool
    ensures { IsTrue result ↔ length text.now ≤ MAX_BYTES }
{
    text.as_bytes().len() <= MAX_BYTES
}

/// The command `load` with these numbers.
fn load_of<'a>(config: &'a Text, count: &'a Text, start: &'a Text) -> Option<Command<'a>>
    ensures { MatchOption result (IsUsage (load_words config.now count.now start.now))
        (λ found. IsCommandOf (load_words config.now count.now start.now) found) }
{
    let count = read_number(count.as_bytes())?;
    let start = read_number(start.as_bytes())?;
    if count > EVENT_LIMIT {
        return None;
    }
    Some(Command::Load {
        config,
        count,
        start,
    })
}

/// The command `graphite` of this file, with an option and its number.
fn graphite_of<'a>(
    command: &'a Text,
    file: &'a Text,
    option: &'a Text,
    number: &'a Text,
) -> Option<Command<'a>>
    requires { command.now ≡ codes "graphite" }
    ensures { MatchOption result
        (IsUsage (command.now ∷ (file.now ∷ (option.now ∷ (number.now ∷ [])))))
        (λ found. IsCommandOf
        (command.now ∷ (file.now ∷ (option.now ∷ (number.now ∷ [])))) found) }
{
    if !option.is(b"--host") || number.as_bytes().len() > HOST_PART_DIGITS {
        return None;
    }
    let part = read_number(number.as_bytes())?;
    if part == 0 || part > MOST_HOST_PART {
        return None;
    }
    Some(Command::Graphite {
        file,
        host_part: Some(part as u32),
    })
}
