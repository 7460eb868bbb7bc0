// Lists of expressions.
ghost use Rattle.std.specs.Prelude.{◌≡◌, [], ◌∷◌, ◌++◌, length, slice_get, OnOk, OnErr};
ghost use Rattle.std.specs.Option.{option_copied};

use crate::expression::Expr;
use flk_base::NoMemory;
use std::alloc::Global;
use std::marker::Model;

/// A list of expressions. Contracts see the list of their lists of terms.
#[derive(Drop)]
pub struct Exprs {
    items: Vec<Expr>,
}

impl Model for Exprs {
    ghost use Rattle.std.specs.Prelude.{List};
    ghost use Rattle.expr_text.specs.Expressions.{Term};

    ghost Value = { List (List Term) };

    ghost view = { λ e. e.items.items };
}

impl Exprs {
    /// No expressions, which allocate nothing.
    pub fn new(alloc: Global) -> Exprs
        ensures { result ≡ [] }
    {
        Exprs {
            items: Vec::new(alloc),
        }
    }

    /// Appends an expression, or nothing.
    pub fn push(&mut self, expression: Expr) -> Result<(), NoMemory>
        ensures ok { OnOk result (self.new ≡ self.old ++ expression ∷ []) }
        ensures err { OnErr result (self.new ≡ self.old) }
    {
        match self.items.push(expression) {
            Ok(()) => Ok(()),
            Err(_) => Err(NoMemory),
        }
    }

    /// How many expressions there are.
    pub fn len(&self) -> usize
        ensures { result ≡ length self.now }
    {
        self.items.len()
    }

    /// The expression at an index, counted from 0; None exactly where it is not below the length.
    pub fn get(&self, i: usize) -> Option<&Expr>
        ensures { option_copied result ≡ slice_get self.now i }
    {
        self.items.get(i)
    }
}
