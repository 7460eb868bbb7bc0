//! Statements with their lines and offsets.

ghost use Rattle.std.specs.Prelude.{◌≡◌, ◌++◌, ℕ, List, map, option_map, OnOk, MatchResult, Ok};
ghost use Rattle.pal_asm.specs.declared.name.Name.{Name as NameView};
ghost use Rattle.pal_asm.specs.Assembling.{with_statement, line_size, placed_bytes};
ghost use Rattle.pal_asm.specs.Seen.{Refuses};
ghost use Rattle.pal_asm.specs.SeenStatements.{statement_view};
ghost use Rattle.pal_asm.specs.SeenDraft.{HasLabels, placed_view};

use crate::fault::{AsmError, AsmFault, AsmKind};
use crate::labels::awaited;
use crate::name::Name;
use crate::spelling::{label_of, put_statement, size_of};
use crate::statement::Statement;
use flk_base::{Bytes, NoMemory};
use std::collections::BTreeMap;

/// A statement with the number of its line and its offset.
#[derive(Drop)]
pub(crate) struct PlacedStatement {
    line: u32,
    at: u32,
    statement: Statement,
}

/// How many bytes a line has.
pub(crate) fn line_size(statement: &Option<Statement>) -> usize
    ensures { result ≡ line_size (option_map statement_view statement.now) }
{
    match statement {
        Some(statement) => size_of(statement),
        None => 0,
    }
}

/// Adds the statement of a line to those before.
pub(crate) fn add_statement(
    placed: &mut Vec<PlacedStatement>,
    line: u32,
    at: u32,
    statement: Option<Statement>,
) -> Result<(), NoMemory>
    ensures { OnOk result (map placed_view placed.new.items
        ≡ with_statement (option_map statement_view statement) line
        at (map placed_view placed.old.items)) }
{
    let Some(statement) = statement else {
        return Ok(());
    };
    match placed.push(PlacedStatement {
        line,
        at,
        statement,
    }) {
        Ok(()) => Ok(()),
        Err(_) => Err(NoMemory),
    }
}

/// Appends the bytes of a statement, where its label is defined.
pub(crate) fn put_placed(
    labels: &BTreeMap<Name, u32>,
    placed: &PlacedStatement,
    code: &mut Bytes,
) -> Result<(), AsmError>
    ensures { (ls : List (NameView × ℕ)) → HasLabels labels.now ls → MatchResult result
        (λ _. (bytes : List ℕ) × (placed_bytes ls (placed_view placed.now) ≡ Ok bytes)
        × (code.new.bytes ≡ code.old.bytes ++ bytes))
        (λ error. Refuses error (placed_bytes ls (placed_view placed.now))) }
{
    let Some(value) = awaited(labels, label_of(&placed.statement)) else {
        return Err(AsmError::At(AsmFault {
            line: placed.line,
            kind: AsmKind::Label,
        }));
    };
    match put_statement(code, &placed.statement, placed.at, value) {
        Ok(()) => Ok(()),
        Err(_) => Err(AsmError::NoMemory),
    }
}
