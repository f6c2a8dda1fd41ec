//! How faults are printed.

use qs_service::{ServeFault, ServiceFault};
use qs_service_replay::ScriptFault;
use std::alloc::Global;
use std::fmt::Display;

fn is_printed(alloc: Global, fault: &impl Display, line: &str) -> bool {
    match format!(in alloc; "{fault}") {
        Ok(text) => text.as_str() == line,
        Err(_) => false,
    }
}

fn are_printed<F: Display>(alloc: Global, rows: &[(F, &str)]) -> bool {
    for (fault, line) in rows {
        if !is_printed(alloc, fault, line) {
            return false;
        }
    }
    true
}

const SERVICE_FAULTS: &[(ServiceFault, &str)] = &[
    (ServiceFault::Busy, "64 connections are joined"),
    (ServiceFault::KnownId, "a connection of this id is joined"),
    (
        ServiceFault::UnknownId,
        "no connection of this id is joined",
    ),
];

const SERVE_FAULTS: &[(ServeFault, &str)] = &[
    (ServeFault::Read, "a read failed"),
    (
        ServeFault::Write { written: 17 },
        "a write failed after 17 bytes of the reply",
    ),
];

const SCRIPT_FAULTS: &[(ScriptFault, &str)] = &[
    (ScriptFault::Line(3), "script line 3"),
    (ScriptFault::Memory, "out of memory"),
];

#[test]
fn prints_faults(rt: HostRuntime) {
    assert!(rt;
        are_printed(rt.alloc(), SERVICE_FAULTS)
            && are_printed(rt.alloc(), SERVE_FAULTS)
            && are_printed(rt.alloc(), SCRIPT_FAULTS)
    );
}
