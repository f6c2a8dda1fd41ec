//! What an operation of an update is called (SPARQL 1.1 Update, 3).

use qs_syntax_ast::update::Operation;

/// The words with which the operation begins, and whether it has no WHERE.
pub(crate) fn operation_words(operation: &Operation) -> (&'static str, bool) {
    match operation {
        Operation::InsertData(_) => ("INSERT DATA", true),
        Operation::DeleteData(_) => ("DELETE DATA", true),
        Operation::DeleteWhere(_) => ("DELETE WHERE", false),
        Operation::Modify(_) => ("DELETE/INSERT", false),
        Operation::Clear(_, _) => ("CLEAR", true),
        Operation::Drop(_, _) => ("DROP", true),
        Operation::Create(_, _) => ("CREATE", true),
        Operation::Add(_) => ("ADD", true),
        Operation::Move(_) => ("MOVE", true),
        Operation::Copy(_) => ("COPY", true),
    }
}
