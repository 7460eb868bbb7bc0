//! What the lines so far gave.

ghost use Rattle.std.specs.Prelude.{◌≤◌, ◌+◌};
ghost use Rattle.pal_asm.specs.Assembling.{most_end};

use crate::fault::{AsmError, AsmKind, LineFault};
use crate::labels::{define, is_defined};
use crate::limits::{CODE_START, MOST_CODE};
use crate::name::Name;
use crate::placed::{PlacedStatement, add_statement, line_size, put_placed};
use crate::statement::Statement;
use flk_base::Bytes;
use std::alloc::Global;
use std::collections::BTreeMap;

/// The most that the offset after the code can be.
const MOST_END: u32 = CODE_START + MOST_CODE as u32;

/// Labels with their values, statements with their offsets, and the offset after them.
#[derive(Drop)]
pub(crate) struct Draft {
    labels: BTreeMap<Name, u32>,
    placed: Vec<PlacedStatement>,
    end: u32,
    ghost reached: { end ≤ most_end },
}

impl Draft {
    ghost use Rattle.std.specs.Prelude.{◌≡◌, [], false, option_map, MatchResult, Ok, IsOk};
    ghost use Rattle.pal_asm.specs.Assembling.{Draft as Lines, no_lines, is_defined, sized_line, code_with};
    ghost use Rattle.pal_asm.specs.Seen.{Refuses};
    ghost use Rattle.pal_asm.specs.SeenStatements.{statement_view};
    ghost use Rattle.pal_asm.specs.SeenDraft.{Stands, Adds};

    /// Before the first line.
    pub(crate) fn new(alloc: Global) -> Draft
        ensures { Stands result no_lines }
    {
        Draft {
            labels: BTreeMap::new(alloc),
            placed: Vec::new(alloc),
            end: CODE_START,
        }
    }

    /// Whether the label of a line has been defined.
    pub(crate) fn defines(&self, label: &Option<Name>) -> bool
        ensures { (lines : Lines) → Stands self.now lines
            → result ≡ is_defined lines.labels label.now }
    {
        is_defined(&self.labels, label)
    }

    /// One more line, unless the code is too long with it. Its label has not been defined.
    pub(crate) fn add(
        &mut self,
        line: u32,
        label: Option<Name>,
        statement: Option<Statement>,
    ) -> Result<(), LineFault>
        ensures { (lines : Lines) → Stands self.old lines → is_defined lines.labels label ≡ false
            → Adds line lines self.new (sized_line lines label
            (option_map statement_view statement)) result }
    {
        let size = line_size(&statement);
        if size > (MOST_END - self.end) as usize {
            return Err(LineFault::Kind(AsmKind::TooLong));
        }
        let Ok(()) = define(&mut self.labels, label, self.end) else {
            return Err(LineFault::NoMemory);
        };
        let Ok(()) = add_statement(&mut self.placed, line, self.end, statement) else {
            return Err(LineFault::NoMemory);
        };
        self.end += size as u32;
        Ok(())
    }

    /// The bytes of the statements, or the first line whose label is not defined.
    pub(crate) fn finish(&self, alloc: Global) -> Result<Bytes, AsmError>
        ensures code { (lines : Lines) → Stands self.now lines → MatchResult result
            (λ code. code_with lines.labels lines.placed ≡ Ok code.bytes)
            (λ error. Refuses error (code_with lines.labels lines.placed)) }
        ensures blank { (lines : Lines) → Stands self.now lines → lines.placed ≡ [] → IsOk result }
    {
        let mut code = Bytes::new(alloc);
        for placed in &self.placed {
            put_placed(&self.labels, placed, &mut code)?;
        }
        Ok(code)
    }
}
