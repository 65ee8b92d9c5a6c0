// The library calls on texts, and their names.

ghost use Rattle.std.specs.Prelude.{◌≡◌};
ghost use Rattle.php_text_calls.specs.TextCalls as spec;

/// A library call on texts, named as in PHP. `Join` is another name of `Implode`.
#[derive(Clone, Copy, Debug, PartialEq, Eq)]
pub enum TextCall {
    Strlen,
    Strtolower,
    Strtoupper,
    Ucfirst,
    Trim,
    Ltrim,
    Rtrim,
    Substr,
    Strpos,
    StrReplace,
    StrRepeat,
    StrPad,
    Strrev,
    Ord,
    Chr,
    Strcmp,
    Explode,
    Implode,
    Join,
    Htmlspecialchars,
    Urlencode,
    Rawurlencode,
    Sprintf,
    Intval,
    Strval,
    IsNumeric,
    IsInt,
    IsString,
    IsBool,
    IsArray,
    IsNull,
    IsObject,
    CtypeDigit,
    Intdiv,
    Dirname,
    Basename,
}

fn case_named(name: &str) -> Option<TextCall>
    ensures { result ≡ spec.case_named name.now }
{
    match name {
        "strlen" => Some(TextCall::Strlen),
        "strtolower" => Some(TextCall::Strtolower),
        "strtoupper" => Some(TextCall::Strtoupper),
        "ucfirst" => Some(TextCall::Ucfirst),
        "strrev" => Some(TextCall::Strrev),
        _ => None,
    }
}

fn trim_named(name: &str) -> Option<TextCall>
    ensures { result ≡ spec.trim_named name.now }
{
    match name {
        "trim" => Some(TextCall::Trim),
        "ltrim" => Some(TextCall::Ltrim),
        "rtrim" => Some(TextCall::Rtrim),
        "ord" => Some(TextCall::Ord),
        "chr" => Some(TextCall::Chr),
        "strcmp" => Some(TextCall::Strcmp),
        _ => None,
    }
}

fn part_named(name: &str) -> Option<TextCall>
    ensures { result ≡ spec.part_named name.now }
{
    match name {
        "substr" => Some(TextCall::Substr),
        "strpos" => Some(TextCall::Strpos),
        "dirname" => Some(TextCall::Dirname),
        "basename" => Some(TextCall::Basename),
        "intdiv" => Some(TextCall::Intdiv),
        _ => None,
    }
}

fn piece_named(name: &str) -> Option<TextCall>
    ensures { result ≡ spec.piece_named name.now }
{
    match name {
        "str_replace" => Some(TextCall::StrReplace),
        "str_repeat" => Some(TextCall::StrRepeat),
        "str_pad" => Some(TextCall::StrPad),
        "explode" => Some(TextCall::Explode),
        "implode" => Some(TextCall::Implode),
        "join" => Some(TextCall::Join),
        _ => None,
    }
}

fn escape_named(name: &str) -> Option<TextCall>
    ensures { result ≡ spec.escape_named name.now }
{
    match name {
        "htmlspecialchars" => Some(TextCall::Htmlspecialchars),
        "urlencode" => Some(TextCall::Urlencode),
        "rawurlencode" => Some(TextCall::Rawurlencode),
        "sprintf" => Some(TextCall::Sprintf),
        "intval" => Some(TextCall::Intval),
        "strval" => Some(TextCall::Strval),
        _ => None,
    }
}

fn kind_named(name: &str) -> Option<TextCall>
    ensures { result ≡ spec.kind_named name.now }
{
    match name {
        "is_int" => Some(TextCall::IsInt),
        "is_string" => Some(TextCall::IsString),
        "is_bool" => Some(TextCall::IsBool),
        "is_array" => Some(TextCall::IsArray),
        "is_null" => Some(TextCall::IsNull),
        _ => None,
    }
}

fn test_named(name: &str) -> Option<TextCall>
    ensures { result ≡ spec.test_named name.now }
{
    match name {
        "is_object" => Some(TextCall::IsObject),
        "is_numeric" => Some(TextCall::IsNumeric),
        "ctype_digit" => Some(TextCall::CtypeDigit),
        _ => None,
    }
}

fn or_else(a: Option<TextCall>, b: Option<TextCall>) -> Option<TextCall>
    ensures { result ≡ spec.or_else a b }
{
    match a {
        None => b,
        Some(call) => Some(call),
    }
}

/// The call of a name in ASCII lower case.
pub fn text_call_named(name: &str) -> Option<TextCall>
    ensures { result ≡ spec.call_named name.now }
{
    let call = test_named(name);
    let call = or_else(kind_named(name), call);
    let call = or_else(escape_named(name), call);
    let call = or_else(piece_named(name), call);
    let call = or_else(part_named(name), call);
    let call = or_else(trim_named(name), call);
    let call = or_else(case_named(name), call);
    call
}
