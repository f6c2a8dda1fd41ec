//! The commands of the program, with their arguments.

use crate::held::keep_beside;
use clap::{Arg, ArgAction, Command};
use std::alloc::{AllocError, Global};

/// The version of the program.
const VERSION: &str = "0.1.0";

/// The argument that names the data.
pub const DATA: &str = "FILE";

/// The argument that names the file of a query.
pub const QUERY: &str = "QUERYFILE";

/// The argument that names the file of an update.
pub const UPDATE: &str = "UPDATEFILE";

/// The argument that names the file of a query or an update.
pub const TEXT: &str = "TEXTFILE";

/// The argument that names a script of connection events.
pub const SCRIPT: &str = "SCRIPT";

/// The argument of the port.
pub const PORT: &str = "P";

/// The argument of the number of connections that are served.
pub const REQUESTS: &str = "N";

/// The argument of the number of connections that are open at once.
pub const AT_ONCE: &str = "M";

/// The argument of the seconds in which no byte comes or goes.
pub const IDLE: &str = "IDLE";

/// The argument of the seconds that a request may take.
pub const REQUEST: &str = "REQUEST";

/// The flag of an update whose plans are printed.
pub const IS_UPDATE: &str = "update";

/// The flag of a union default graph.
pub const UNION_DEFAULT: &str = "union-default";

/// What an argument takes.
#[derive(Clone, Copy)]
enum Kind {
    /// A text, which is required.
    Text,
    /// Nothing.
    Flag,
    /// A number from 1 to 65535, which is required.
    Port,
    /// A number from 0 to 4294967295.
    Count,
    /// A number from 1 to 64.
    Few,
    /// A number from 1 to 4294967295.
    Seconds,
}

/// An argument of a command.
#[derive(Clone, Copy)]
struct Argument<'a> {
    name: &'a str,
    long: Option<&'a str>,
    kind: Kind,
    help: &'a str,
}

/// A command with its arguments.
#[derive(Clone, Copy)]
struct Entry<'a> {
    name: &'a str,
    about: &'a str,
    example: &'a str,
    arguments: &'a [Argument<'a>],
}

const DATA_FILE: Argument<'static> = Argument {
    name: DATA,
    long: None,
    kind: Kind::Text,
    help: "the data, as N-Quads",
};

const UNION: Argument<'static> = Argument {
    name: UNION_DEFAULT,
    long: Some(UNION_DEFAULT),
    kind: Kind::Flag,
    help: "queries see the union of all named graphs as the default graph",
};

const ENTRIES: &[Entry<'static>] = &[
    Entry {
        name: "check",
        about: "Prints the data of a file as N-Quads, each quad once, in the order of the lines",
        example: "Example: quads check examples/data.nq",
        arguments: &[DATA_FILE],
    },
    Entry {
        name: "query",
        about: "Prints the answer of a query over the data of a file: as JSON, or for CONSTRUCT as N-Triples",
        example: "Example: quads query examples/data.nq examples/authors.rq",
        arguments: &[
            DATA_FILE,
            Argument {
                name: QUERY,
                long: None,
                kind: Kind::Text,
                help: "the text of the query",
            },
            UNION,
        ],
    },
    Entry {
        name: "update",
        about: "Prints the data of a file after an update, as N-Quads; the file stays as it is",
        example: "Example: quads update examples/data.nq examples/lend.ru",
        arguments: &[
            DATA_FILE,
            Argument {
                name: UPDATE,
                long: None,
                kind: Kind::Text,
                help: "the text of the update",
            },
            UNION,
        ],
    },
    Entry {
        name: "explain",
        about: "Prints the plan of a query or an update over the data of a file, a line a stage; nothing is carried out",
        example: "Example: quads explain examples/data.nq examples/loans.rq",
        arguments: &[
            DATA_FILE,
            Argument {
                name: TEXT,
                long: None,
                kind: Kind::Text,
                help: "the text of the query, or of the update",
            },
            Argument {
                name: IS_UPDATE,
                long: Some(IS_UPDATE),
                kind: Kind::Flag,
                help: "the text is an update; the plan of each operation's WHERE is printed",
            },
            UNION,
        ],
    },
    Entry {
        name: "replay",
        about: "Carries out the connection events of a script over the data of a file, and prints each reply in hex",
        example: "Example: quads replay examples/data.nq examples/talk.script",
        arguments: &[
            DATA_FILE,
            Argument {
                name: SCRIPT,
                long: None,
                kind: Kind::Text,
                help: "lines `join <id>`, `piece <id> <hex>` and `end <id>`",
            },
            UNION,
        ],
    },
    Entry {
        name: "serve",
        about: "Serves the data of a file by the SPARQL protocol, at /query, /update and /data",
        example: "Example: quads serve --port 7878 --data examples/data.nq",
        arguments: &[
            Argument {
                name: PORT,
                long: Some("port"),
                kind: Kind::Port,
                help: "the port, on 127.0.0.1",
            },
            Argument {
                name: DATA,
                long: Some("data"),
                kind: Kind::Text,
                help: "the data, as N-Quads",
            },
            Argument {
                name: REQUESTS,
                long: Some("requests"),
                kind: Kind::Count,
                help: "how many connections are served; without it, until the program is stopped",
            },
            Argument {
                name: AT_ONCE,
                long: Some("at-once"),
                kind: Kind::Few,
                help: "how many connections are open at once, from 1 to 64; 64 unless said",
            },
            Argument {
                name: IDLE,
                long: Some("idle"),
                kind: Kind::Seconds,
                help: "a connection is dropped when no byte comes or goes for so long; 30 unless said",
            },
            Argument {
                name: REQUEST,
                long: Some("request"),
                kind: Kind::Seconds,
                help: "a connection is dropped when its request isn't whole by then; 120 unless said",
            },
            UNION,
        ],
    },
];

// The argument with what its kind asks for.
fn of_kind<'a>(argument: Arg<'a>, kind: Kind) -> Arg<'a> {
    match kind {
        Kind::Text => argument.required(true),
        Kind::Flag => argument.action(ArgAction::SetTrue),
        Kind::Port => argument
            .required(true)
            .value_parser(clap::value_parser!(u16).range(1..)),
        Kind::Count => argument.value_parser(clap::value_parser!(u32)),
        Kind::Few => argument.value_parser(clap::value_parser!(u16).range(1..=64)),
        Kind::Seconds => argument
            .value_name("SECONDS")
            .value_parser(clap::value_parser!(u32).range(1..)),
    }
}

fn argument_of<'a>(alloc: Global, entry: &Argument<'a>) -> Arg<'a> {
    let argument = Arg::new(alloc, entry.name).help(entry.help);
    let argument = match entry.long {
        Some(long) => argument.long(long),
        None => argument,
    };
    of_kind(argument, entry.kind)
}

// The command with the arguments.
fn with_arguments<'a>(
    alloc: Global,
    command: Command<'a>,
    arguments: &[Argument<'a>],
) -> Result<Command<'a>, AllocError> {
    let mut command = command;
    for argument in arguments {
        command = command.arg(argument_of(alloc, argument))?;
    }
    Ok(command)
}

fn command_of<'a>(alloc: Global, entry: &Entry<'a>) -> Result<Command<'a>, AllocError> {
    let command = Command::new(alloc, entry.name)
        .about(entry.about)
        .after_help(entry.example);
    with_arguments(alloc, command, entry.arguments)
}

// The command with one more below it.
fn with_entry<'a>(
    alloc: Global,
    command: Command<'a>,
    entry: &Entry<'a>,
) -> Result<Command<'a>, AllocError> {
    let (command, added) = keep_beside(command, command_of(alloc, entry))?;
    command.subcommand(added)
}

fn with_entries<'a>(
    alloc: Global,
    command: Command<'a>,
    entries: &[Entry<'a>],
) -> Result<Command<'a>, AllocError> {
    let mut command = command;
    for entry in entries {
        command = with_entry(alloc, command, entry)?;
    }
    Ok(command)
}

/// Returns the commands of the program.
///
/// # Errors
///
/// Out of memory.
pub fn command<'a>(alloc: Global) -> Result<Command<'a>, AllocError> {
    let command = Command::new(alloc, "quads")
        .about("An RDF quad store with SPARQL, over the data of a file or as a server")
        .after_help("Example: quads query examples/data.nq examples/authors.rq")
        .version(VERSION)
        .subcommand_required(true);
    with_entries(alloc, command, ENTRIES)
}
