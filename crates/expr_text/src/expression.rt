// Expressions, and how they are read from a word.
ghost use Rattle.std.specs.Prelude.{◌≡◌, ◌↔◌, ◌≤◌, ℕ, List, length, IfOk, Some};
ghost use Rattle.flk_base.specs.Checks.{GivesFaultFirst};
ghost use Rattle.expr_text.specs.Expressions.{Term, SpellsExpression};
ghost use Rattle.expr_text.specs.ExpressionReading.{Reads, expression_of};
ghost use Rattle.expr_text.specs.Values.{value_of};
ghost use Rattle.expr_text.specs.SeenExpressions.{expr_fault};
ghost use Rattle.expr_text.specs.declared.value.TheConstants.{LONGEST_VALUE};

use crate::name::Name;
use crate::spelling::terms_in;
use crate::value::{ExprError, value_of};
use crate::vars::Vars;
use flk_base::Bytes;
use std::alloc::Global;
use std::marker::Model;

/// What a term begins with.
#[derive(Drop)]
pub(crate) enum ExprAtom {
    /// These bytes.
    Literal(Bytes),
    /// One byte, so many times.
    Repeated { byte: u8, count: u32 },
    /// The value of a name.
    Named(Name),
}

/// What is done to a value.
#[derive(Clone, Copy)]
pub(crate) enum ExprSuffix {
    /// To keep the bytes from one index up to another.
    Cut { from: u32, to: u32 },
    /// To flip the lowest bit of the byte at an index.
    Flip { at: u32 },
}

/// An atom, and what is done to its value, from the left.
#[derive(Drop)]
pub(crate) struct ExprTerm {
    pub(crate) atom: ExprAtom,
    pub(crate) suffixes: Vec<ExprSuffix>,
}

/// An expression: terms, whose values follow one another. Contracts see the list of terms.
#[derive(Drop)]
pub struct Expr {
    terms: Vec<ExprTerm>,
}

impl Model for Expr {
    ghost use Rattle.std.specs.Prelude.{List};
    ghost use Rattle.expr_text.specs.Expressions.{Term};

    ghost Value = { List Term };

    ghost use Rattle.expr_text.specs.SeenExpressions.{seen_terms};

    ghost view = { λ e. seen_terms e.terms.items };
}

/// Why a word is not read as an expression.
#[derive(Clone, Copy)]
pub enum Unread {
    /// It spells none.
    Spelling,
    /// There was no memory for the expression.
    NoMemory,
}

impl Expr {
    /// The value of the expression, or the first fault from the left. It allocates for the value
    /// alone, and only where there is one: every fault is found before.
    pub fn value(&self, alloc: Global, vars: &Vars) -> Result<Bytes, ExprError>
        ensures exact { GivesFaultFirst expr_fault
            (λ made. made.bytes) result (value_of self.now vars.now.table) }
        ensures short { IfOk result (λ made. length made.bytes ≤ LONGEST_VALUE) }
    {
        value_of(alloc, self.terms.as_slice(), vars)
    }
}

/// The expression that the word spells.
pub fn expression_in(alloc: Global, word: &[u8]) -> Result<Expr, Unread>
    // What is read is spelled so.
    ensures spelled { IfOk result (λ expression. SpellsExpression expression word.now) }
    // What is spelled so is read, unless memory runs out.
    ensures only { (terms : List Term) → SpellsExpression terms word.now
        → Reads (λ expression. expression) result (Some terms) }
    // What it gives is what the word's own reading is.
    ensures exact { Reads (λ expression. expression) result (expression_of word.now) }
{
    read(alloc, word)
}

/// No word spells two expressions, and what a word spells is what reading it gives.
pub fn one_expression()
    ensures one { (word : List ℕ) (a : List Term) (b : List Term) → SpellsExpression a word
        → SpellsExpression b word → a ≡ b }
    ensures read { (word : List ℕ) (terms : List Term)
        → SpellsExpression terms word ↔ (expression_of word ≡ Some terms) }
{}

fn read(alloc: Global, word: &[u8]) -> Result<Expr, Unread>
    ensures { Reads (λ expression. expression) result (expression_of word.now) }
{
    let terms = terms_in(alloc, word)?;
    Ok(Expr { terms })
}
