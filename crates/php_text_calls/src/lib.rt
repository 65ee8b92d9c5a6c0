//! PHP's library calls on texts.
#![tactic(auto)]

ghost use Rattle.php_arguments.specs.Answers.{GivesValue, datas};
ghost use Rattle.php_text_calls.specs.TextCalls.{text_answer};

mod arguments;
mod call;
mod escape;
mod format;
mod kinds;
mod letters;
mod parts;
mod pieces;
#[cfg(test)]
mod tests;

pub use call::{TextCall, text_call_named};
use php_arguments::CallFault;
use php_values::Value;
use std::alloc::Global;

/// The value of a library call on texts. A fault of the count of arguments comes first, then those of the arguments from
/// left to right, then the call's own.
#[tactic(auto, unfolding(crate::specs::TextCalls::text_answer))]
pub fn text_call(alloc: Global, call: TextCall, args: &[Value]) -> Result<Value, CallFault>
    ensures { GivesValue (text_answer call (datas args.now)) result }
{
    match call {
        TextCall::Strlen => letters::strlen(alloc, args),
        TextCall::Strtolower => letters::strtolower(alloc, args),
        TextCall::Strtoupper => letters::strtoupper(alloc, args),
        TextCall::Ucfirst => letters::ucfirst(alloc, args),
        TextCall::Trim => letters::trim(alloc, args),
        TextCall::Ltrim => letters::ltrim(alloc, args),
        TextCall::Rtrim => letters::rtrim(alloc, args),
        TextCall::Substr => parts::substr(alloc, args),
        TextCall::Strpos => parts::strpos(alloc, args),
        TextCall::StrReplace => pieces::str_replace(alloc, args),
        TextCall::StrRepeat => pieces::str_repeat(alloc, args),
        TextCall::StrPad => pieces::str_pad(alloc, args),
        TextCall::Strrev => letters::strrev(alloc, args),
        TextCall::Ord => letters::ord(alloc, args),
        TextCall::Chr => letters::chr(alloc, args),
        TextCall::Strcmp => letters::strcmp(alloc, args),
        TextCall::Explode => pieces::explode(alloc, args),
        TextCall::Implode => pieces::implode(alloc, args),
        TextCall::Join => pieces::implode(alloc, args),
        TextCall::Htmlspecialchars => escape::htmlspecialchars(alloc, args),
        TextCall::Urlencode => escape::urlencode(alloc, args),
        TextCall::Rawurlencode => escape::rawurlencode(alloc, args),
        TextCall::Sprintf => format::sprintf(alloc, args),
        TextCall::Intval => kinds::intval(args),
        TextCall::Strval => kinds::strval(alloc, args),
        TextCall::IsNumeric => kinds::is_numeric_call(args),
        TextCall::IsInt => kinds::is_int_call(args),
        TextCall::IsString => kinds::is_string_call(args),
        TextCall::IsBool => kinds::is_bool_call(args),
        TextCall::IsArray => kinds::is_array_call(args),
        TextCall::IsNull => kinds::is_null_call(args),
        TextCall::IsObject => kinds::is_object_call(args),
        TextCall::CtypeDigit => kinds::ctype_digit(args),
        TextCall::Intdiv => kinds::intdiv(args),
        TextCall::Dirname => parts::dirname(alloc, args),
        TextCall::Basename => parts::basename(alloc, args),
    }
}
