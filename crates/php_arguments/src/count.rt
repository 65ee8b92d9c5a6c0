// How many arguments a call takes.

ghost use Rattle.php_arguments.specs.Answers.{datas};
ghost use Rattle.php_arguments.specs.Arguments as spec;

use crate::fault::CallFault;
use php_values::Value;

/// The only argument.
pub fn one(args: &[Value]) -> Result<&Value, CallFault>
    ensures { spec.GivesOne (spec.one (datas args.now)) result }
{
    match args {
        [first] => Ok(first),
        _ => Err(CallFault::Arity),
    }
}

/// Both arguments.
pub fn two(args: &[Value]) -> Result<(&Value, &Value), CallFault>
    ensures { spec.GivesTwo (spec.two (datas args.now)) result }
{
    match args {
        [first, second] => Ok((first, second)),
        _ => Err(CallFault::Arity),
    }
}

/// All three arguments.
pub fn three(args: &[Value]) -> Result<(&Value, &Value, &Value), CallFault>
    ensures { spec.GivesThree (spec.three (datas args.now)) result }
{
    match args {
        [first, second, third] => Ok((first, second, third)),
        _ => Err(CallFault::Arity),
    }
}

/// One argument, and a second where it is given.
pub fn one_or_two(args: &[Value]) -> Result<(&Value, Option<&Value>), CallFault>
    ensures { spec.GivesOneMore (spec.one_or_two (datas args.now)) result }
{
    match args {
        [first] => Ok((first, None)),
        [first, second] => Ok((first, Some(second))),
        _ => Err(CallFault::Arity),
    }
}

/// Two arguments, and a third where it is given.
pub fn two_or_three(args: &[Value]) -> Result<(&Value, &Value, Option<&Value>), CallFault>
    ensures { spec.GivesTwoMore (spec.two_or_three (datas args.now)) result }
{
    match args {
        [first, second] => Ok((first, second, None)),
        [first, second, third] => Ok((first, second, Some(third))),
        _ => Err(CallFault::Arity),
    }
}

/// Two arguments, and a third and a fourth where they are given.
pub fn two_to_four(
    args: &[Value],
) -> Result<(&Value, &Value, Option<&Value>, Option<&Value>), CallFault>
    ensures { spec.GivesTwoToFour (spec.two_to_four (datas args.now)) result }
{
    match args {
        [first, second] => Ok((first, second, None, None)),
        [first, second, third] => Ok((first, second, Some(third), None)),
        [first, second, third, fourth] => Ok((first, second, Some(third), Some(fourth))),
        _ => Err(CallFault::Arity),
    }
}

/// One argument, and all behind it.
pub fn one_and_more(args: &[Value]) -> Result<(&Value, &[Value]), CallFault>
    ensures { spec.GivesAndMore (spec.one_and_more (datas args.now)) result }
{
    match args {
        [] => Err(CallFault::Arity),
        [first, rest @ ..] => Ok((first, rest)),
    }
}
