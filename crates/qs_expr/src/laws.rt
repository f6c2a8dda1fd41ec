//! What holds of cells, rows and tables.

ghost use Rattle.std.specs.Prelude.{◌≡◌, List};
ghost use Rattle.qs_terms.specs.declared.term.Term.{Term as TermValue};
ghost use Rattle.qs_expr.specs.declared.cell.Cell.{Cell as CellValue};
ghost use Rattle.qs_expr.specs.inner.Cell.{Cells, denoted, row_solution, FitsCell, FitsRow};
ghost use Rattle.qs_expr.specs.inner.Scratch.{IsTable, Grows};

/// A cell keeps its term while the table grows.
#[tactic(auto, using(crate::proofs::Growth::still_fits, crate::proofs::Growth::still_same))]
pub fn cells_keep_their_terms()
    ensures fits { (known old new : List TermValue) (c : CellValue) → Grows known old new
        → FitsCell known old c → FitsCell known new c }
    ensures terms { (known old new : List TermValue) (c : CellValue) → Grows known old new
        → FitsCell known old c → denoted known new c ≡ denoted known old c }
{}

/// A row keeps its solution while the table grows.
#[tactic(auto, using(crate::proofs::Growth::still_row, crate::proofs::Growth::same_row))]
pub fn rows_keep_their_solutions()
    ensures fits { (known old new : List TermValue) (m : Cells) → Grows known old new
        → FitsRow known old m → FitsRow known new m }
    ensures solutions { (known old new : List TermValue) (m : Cells) → Grows known old new
        → FitsRow known old m → row_solution known new m ≡ row_solution known old m }
{}

/// A table that grows time and again grows.
#[tactic(auto, using(crate::proofs::Growth::stays, crate::proofs::Growth::goes_on))]
pub fn tables_go_on()
    ensures same { (known table : List TermValue) → IsTable known table → Grows known table table }
    ensures more { (known old mid new : List TermValue) → Grows known old mid → Grows known mid new
        → Grows known old new }
{}
