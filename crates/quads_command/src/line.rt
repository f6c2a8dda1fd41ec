//! What a command line asks for.

use crate::command::{
    AT_ONCE, DATA, IDLE, IS_UPDATE, PORT, QUERY, REQUEST, REQUESTS, SCRIPT, TEXT, UNION_DEFAULT,
    UPDATE,
};
use clap::ArgMatches;

/// How the connections of a server are treated.
#[derive(Clone, Copy)]
pub struct ServeOptions {
    /// How many connections are served in all; `None` where there is no end.
    pub requests: Option<u32>,
    /// How many connections are open at once at most, from 1 to 64.
    pub at_once: u16,
    /// After how many seconds a connection is dropped on which no byte comes or goes.
    pub idle: u32,
    /// After how many seconds a connection is dropped whose request isn't whole.
    pub request: u32,
}

/// A job of the program, with the names of its files. Where `union_default` is true, queries see the union of all named graphs as the
/// default graph.
#[derive(Clone, Copy)]
pub enum CommandLine<'a> {
    /// `check FILE`: the data are printed as N-Quads.
    Check {
        data: &'a str,
    },
    /// `query FILE QUERYFILE`: a query over the data is answered.
    Query {
        data: &'a str,
        query: &'a str,
        union_default: bool,
    },
    /// `update FILE UPDATEFILE`: an update of the data is carried out.
    Update {
        data: &'a str,
        update: &'a str,
        union_default: bool,
    },
    /// `explain FILE TEXTFILE`: the plans of a query over the data are printed, or those of an update.
    Explain {
        data: &'a str,
        text: &'a str,
        is_update: bool,
        union_default: bool,
    },
    /// `replay FILE SCRIPT`: the connection events of a script are carried out over the data.
    Replay {
        data: &'a str,
        script: &'a str,
        union_default: bool,
    },
    /// `serve --port P --data FILE`: the data are served on this port of 127.0.0.1.
    Serve {
        port: u16,
        data: &'a str,
        options: ServeOptions,
        union_default: bool,
    },
}

fn query_line<'a>(matches: &ArgMatches<'a>) -> Option<CommandLine<'a>> {
    Some(CommandLine::Query {
        data: matches.get_str(DATA)?,
        query: matches.get_str(QUERY)?,
        union_default: matches.get_flag(UNION_DEFAULT),
    })
}

fn update_line<'a>(matches: &ArgMatches<'a>) -> Option<CommandLine<'a>> {
    Some(CommandLine::Update {
        data: matches.get_str(DATA)?,
        update: matches.get_str(UPDATE)?,
        union_default: matches.get_flag(UNION_DEFAULT),
    })
}

fn explain_line<'a>(matches: &ArgMatches<'a>) -> Option<CommandLine<'a>> {
    Some(CommandLine::Explain {
        data: matches.get_str(DATA)?,
        text: matches.get_str(TEXT)?,
        is_update: matches.get_flag(IS_UPDATE),
        union_default: matches.get_flag(UNION_DEFAULT),
    })
}

fn replay_line<'a>(matches: &ArgMatches<'a>) -> Option<CommandLine<'a>> {
    Some(CommandLine::Replay {
        data: matches.get_str(DATA)?,
        script: matches.get_str(SCRIPT)?,
        union_default: matches.get_flag(UNION_DEFAULT),
    })
}

fn serve_options(matches: &ArgMatches<'_>) -> ServeOptions {
    ServeOptions {
        requests: matches.get_one::<u32>(REQUESTS),
        at_once: matches.get_one::<u16>(AT_ONCE).unwrap_or(64),
        idle: matches.get_one::<u32>(IDLE).unwrap_or(30),
        request: matches.get_one::<u32>(REQUEST).unwrap_or(120),
    }
}

fn serve_line<'a>(matches: &ArgMatches<'a>) -> Option<CommandLine<'a>> {
    Some(CommandLine::Serve {
        port: matches.get_one::<u16>(PORT)?,
        data: matches.get_str(DATA)?,
        options: serve_options(matches),
        union_default: matches.get_flag(UNION_DEFAULT),
    })
}

/// Returns the job that the matches of a command line name, or `None` where one of its parts is missing. `clap` accepts no such words:
/// each part is required.
pub fn line_of<'a>(matches: &ArgMatches<'a>) -> Option<CommandLine<'a>> {
    match matches.subcommand()? {
        ("check", matches) => Some(CommandLine::Check {
            data: matches.get_str(DATA)?,
        }),
        ("query", matches) => query_line(matches),
        ("update", matches) => update_line(matches),
        ("explain", matches) => explain_line(matches),
        ("replay", matches) => replay_line(matches),
        ("serve", matches) => serve_line(matches),
        _ => None,
    }
}
