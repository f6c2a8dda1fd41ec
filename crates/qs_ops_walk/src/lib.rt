//! Walks over stages of a plan, over a view of the store (SPARQL 1.1 Query, 18.5 and 18.6).
//!
//! A `Cursor` answers the solutions of stages row by row. Contracts see the solutions that are still to come: after `Cursor::start` they are
//! those of the stages, in some order. `specs/inner/Stream.antt` says what a caller sees of it.
//!
//! The stages are compiled to a program. A walk goes through it with a stack of levels: each has a source of rows, and the position where they
//! go on. The right side of an OPTIONAL or a MINUS, and a group that is joined, are evaluated by a walk of their own, and kept.
#![tactic(auto)]

mod after_names;
mod alike;
mod cursor;
mod kept;
mod levels;
mod reader;
mod right;
mod settle;
mod source;
mod spare;
mod walk;
mod work;

pub use cursor::Cursor;
