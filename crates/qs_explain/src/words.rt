//! What a plan is printed with: variables, and stages without what is told of them.

use qs_plan::{Stage, StageLine, VariableWord};
use qs_terms::Text;
use std::alloc::AllocError;

/// Writes the variable, with the name that it has among these.
pub(crate) fn put_variable(
    names: &[Text],
    variable: usize,
    text: &mut String,
) -> Result<(), AllocError> {
    let word = VariableWord { names, variable };
    let outcome = write!(text, "{word}");
    let VariableWord {
        names: _,
        variable: _,
    } = word;
    outcome
}

/// Writes what the stage is, without the stages of its groups.
pub(crate) fn put_line(names: &[Text], stage: &Stage, text: &mut String) -> Result<(), AllocError> {
    let line = StageLine { names, stage };
    let outcome = write!(text, "{line}");
    let StageLine { names: _, stage: _ } = line;
    outcome
}
