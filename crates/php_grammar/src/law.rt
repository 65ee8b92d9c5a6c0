//! What holds of every list of tokens, of which no code is needed.

ghost use Rattle.std.specs.Prelude.{◌≡◌, ℕ, List};
ghost use Rattle.php_tree.specs.Statements.{Statements};
ghost use Rattle.php_grammar.specs.Place.{IsTree, IsFault};
ghost use Rattle.php_grammar.specs.Values.{Lexeme};

use crate::token::Fault;

/// A list of tokens has at most one tree.
pub fn one_tree()
    ensures { (ts : List Lexeme) (one other : Statements ℕ) → IsTree one ts → IsTree other ts → one ≡ other }
{}

/// A list of tokens has at most one fault.
pub fn one_fault(fault: Fault, other: Fault)
    ensures place { (ts : List Lexeme) (m n : ℕ) → IsFault ts m fault → IsFault ts n other → m ≡ n }
    ensures kind { (ts : List Lexeme) (m n : ℕ) → IsFault ts m fault → IsFault ts n other → fault ≡ other }
{}

/// A list of tokens with a fault has no tree.
pub fn no_tree_at_a_fault(fault: Fault)
    ensures { (ts : List Lexeme) (m : ℕ) (tree : Statements ℕ) → IsFault ts m fault → IsTree tree ts → ⊥ }
{}
