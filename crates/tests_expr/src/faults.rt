//! How faults are printed.

use qs_expr_meaning::ExprFault;
use std::alloc::Global;

fn is_printed(alloc: Global, fault: ExprFault, line: &str) -> bool {
    match format!(in alloc; "{fault}") {
        Ok(text) => text.as_str() == line,
        Err(_) => false,
    }
}

#[test]
fn prints_faults(rt: HostRuntime) {
    assert!(rt;
        is_printed(
            rt.alloc(),
            ExprFault::TypeError,
            "the expression has a type error"
        ) && is_printed(rt.alloc(), ExprFault::Memory, "out of memory")
    );
}
