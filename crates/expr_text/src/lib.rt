//! The expressions of a script: how numbers, names and expressions are read from a word, and what
//! an expression is worth.
#![tactic(auto)]

mod expression;
mod exprs;
mod name;
mod numbers;
mod pieces;
mod spelling;
mod value;
mod vars;

pub use expression::{Expr, Unread, expression_in, one_expression};
pub use exprs::Exprs;
pub use name::LONGEST_NAME;
pub use numbers::number_of;
pub use spelling::is_name;
pub use value::{ExprError, ExprFault, LONGEST_VALUE};
pub use vars::Vars;
