//! The jobs that command lines ask for.

use crate::files::{file, hasher, two_files};
use crate::listen::serve_data;
use qs_base::drop_value;
use qs_store::DefaultGraph;
use qs_terms::Sink;
use quads::{Job, TextKind, run_owned};
use quads_command::CommandLine;

/// Returns the default graph that queries see.
pub fn default_graph(union_default: bool) -> DefaultGraph {
    if union_default {
        DefaultGraph::Union
    } else {
        DefaultGraph::Stored
    }
}

fn check_job<S: Sink>(rt: &HostRuntime, out: &mut S, data: &str) -> Result<Job, u8> {
    let data = file(rt, out, data)?;
    Ok(Job::Check { data })
}

fn query_job<S: Sink>(
    rt: &HostRuntime,
    out: &mut S,
    (data, query): (&str, &str),
    default_graph: DefaultGraph,
) -> Result<Job, u8> {
    let (data, text) = two_files(rt, out, data, query)?;
    Ok(Job::Query {
        data,
        text,
        default_graph,
    })
}

fn update_job<S: Sink>(
    rt: &HostRuntime,
    out: &mut S,
    (data, update): (&str, &str),
    default_graph: DefaultGraph,
) -> Result<Job, u8> {
    let (data, text) = two_files(rt, out, data, update)?;
    Ok(Job::Update {
        data,
        text,
        default_graph,
    })
}

fn replay_job<S: Sink>(
    rt: &HostRuntime,
    out: &mut S,
    (data, script): (&str, &str),
    default_graph: DefaultGraph,
) -> Result<Job, u8> {
    let (data, script) = two_files(rt, out, data, script)?;
    Ok(Job::Replay {
        data,
        script,
        default_graph,
    })
}

fn explain_job<S: Sink>(
    rt: &HostRuntime,
    out: &mut S,
    (data, text): (&str, &str),
    is_update: bool,
    default_graph: DefaultGraph,
) -> Result<Job, u8> {
    let (data, text) = two_files(rt, out, data, text)?;
    let kind = if is_update {
        TextKind::Update
    } else {
        TextKind::Query
    };
    Ok(Job::Explain {
        data,
        text,
        kind,
        default_graph,
    })
}

// Does the job, where its files can be read: its exit status, or that of the refusal.
fn do_job<S: Sink>(rt: &HostRuntime, out: &mut S, job: Result<Job, u8>) -> u8 {
    match job {
        Ok(job) => match hasher(rt, out) {
            Ok(hasher) => run_owned(rt.alloc(), job, hasher, out).status,
            Err(status) => {
                drop_value(job);
                status
            }
        },
        Err(status) => status,
    }
}

/// Does what the command line asks for, and returns the exit status.
pub fn do_line<S: Sink>(rt: &HostRuntime, out: &mut S, line: CommandLine<'_>) -> u8 {
    let job = match line {
        CommandLine::Check { data } => check_job(rt, out, data),
        CommandLine::Query {
            data,
            query,
            union_default,
        } => query_job(rt, out, (data, query), default_graph(union_default)),
        CommandLine::Update {
            data,
            update,
            union_default,
        } => update_job(rt, out, (data, update), default_graph(union_default)),
        CommandLine::Replay {
            data,
            script,
            union_default,
        } => replay_job(rt, out, (data, script), default_graph(union_default)),
        CommandLine::Explain {
            data,
            text,
            is_update,
            union_default,
        } => {
            let default_graph = default_graph(union_default);
            explain_job(rt, out, (data, text), is_update, default_graph)
        }
        CommandLine::Serve {
            port,
            data,
            options,
            union_default,
        } => {
            let default_graph = default_graph(union_default);
            return serve_data(rt, out, port, &options, data, default_graph);
        }
    };
    do_job(rt, out, job)
}
