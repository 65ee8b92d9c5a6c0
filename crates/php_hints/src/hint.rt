// What parameters take, and what a `return` gives.

ghost use Rattle.std.specs.Prelude.{◌≡◌, ℕ, List, IfOk};
ghost use Rattle.std.specs.Option.{option_map, option_copied};
ghost use Rattle.php_tree.specs.ExpressionOf.{expression_or_none};
ghost use Rattle.php_tree.specs.StatementOf.{parameter_of};
ghost use Rattle.php_tree.specs.Renamed.{renamed_option, renamed_parameter};
ghost use Rattle.php_values.specs.Data.{data_of};
ghost use Rattle.php_meaning.specs.Hints as spec;

use crate::convert::by_hint;
use php_names::is_word;
use php_tree::decl::{Hint, Param};
use php_tree::expr::Expr;
use php_values::Value;
use sqlite_items::Boxed;
use std::alloc::{AllocError, Global};

// Whether a default is written as `null`.
#[tactic(auto, using(php_tree::proofs::Expressions::expressions))]
fn is_null_default(default: &Option<Boxed<Expr>>) -> bool
    ensures { (name : ℕ → List ℕ) → result ≡ spec.is_null_default (renamed_option name (expression_or_none default.now)) }
{
    match default {
        None => false,
        Some(e) => match e.get() {
            Expr::Constant(constant, _) => is_word(constant.text.as_slice(), b"null"),
            _ => false,
        },
    }
}

/// What a parameter makes of a value, `None` where it refuses it. A value that fits is handed back as it is.
pub fn taken(alloc: Global, param: &Param, value: Value) -> Result<Option<Value>, AllocError>
    ensures { IfOk result (λ o. (name : ℕ → List ℕ) → option_map data_of o ≡ spec.taken (renamed_parameter name (parameter_of param.now)) (data_of value)) }
{
    let Some(hint) = &param.hint else {
        return Ok(Some(value));
    };
    let nullable = hint.nullable || is_null_default(&param.default);
    let taken = by_hint(alloc, nullable, hint.name.text.as_slice(), value)?;
    Ok(taken)
}

// Whether a hint says that nothing is given.
fn is_void(hint: &Hint) -> bool
    ensures { result ≡ spec.is_void hint.now }
{
    is_word(hint.name.text.as_slice(), b"void")
}

fn or_null(value: Option<Value>) -> Value
    ensures { data_of result ≡ spec.or_null (option_map data_of value) }
{
    match value {
        None => Value::Null,
        Some(value) => value,
    }
}

fn nothing_given(value: Option<Value>) -> Option<Value>
    ensures { option_map data_of result ≡ spec.nothing_given (option_map data_of value) }
{
    match value {
        None => Some(Value::Null),
        Some(_) => None,
    }
}

/// What a `return` with a value, or without one, gives by the hint of the function that runs; `None` where that refuses it.
pub fn given_by(
    alloc: Global,
    hint: Option<&Hint>,
    value: Option<Value>,
) -> Result<Option<Value>, AllocError>
    ensures { IfOk result (λ o. option_map data_of o ≡ spec.given_by (option_copied hint.entry) (option_map data_of value)) }
{
    let Some(hint) = hint else {
        return Ok(Some(or_null(value)));
    };
    if is_void(hint) {
        return Ok(nothing_given(value));
    }
    let given = by_hint(
        alloc,
        hint.nullable,
        hint.name.text.as_slice(),
        or_null(value),
    )?;
    Ok(given)
}
