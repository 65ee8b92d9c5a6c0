//! Reserved words.

ghost use Rattle.std.specs.Prelude.{◌≡◌};
ghost use Rattle.php_lexemes.specs.Words.{word_sort, two_letters, three_letters, four_letters, five_letters, six_letters, seven_letters, eight_letters, nine_letters, ten_letters, twelve_letters, thirteen_letters, fifteen_letters, is};

use php_grammar::token::{Detail, Kind};
use php_tree::decl::Visibility;
use php_tree::expr::{ChainOp, IncludeKind};

/// Whether the words are the same but for the case of their letters.
fn is(word: &[u8], name: &[u8]) -> bool
    ensures { result ≡ is word.now name.now }
{
    word.eq_ignore_ascii_case(name)
}

fn two_letters(word: &[u8]) -> (Kind, Detail)
    ensures { result ≡ two_letters word.now }
{
    if is(word, b"as") {
        return (Kind::As, Detail::Only);
    }
    if is(word, b"do") {
        return (Kind::Do, Detail::Only);
    }
    if is(word, b"if") {
        return (Kind::If, Detail::Only);
    }
    if is(word, b"or") {
        return (Kind::Or, Detail::Chain(ChainOp::LowOr));
    }
    (Kind::Word, Detail::Only)
}

fn three_letters(word: &[u8]) -> (Kind, Detail)
    ensures { result ≡ three_letters word.now }
{
    if is(word, b"and") {
        return (Kind::And, Detail::Chain(ChainOp::LowAnd));
    }
    if is(word, b"die") {
        return (Kind::Exit, Detail::Only);
    }
    if is(word, b"for") {
        return (Kind::For, Detail::Only);
    }
    if is(word, b"new") {
        return (Kind::New, Detail::Only);
    }
    if is(word, b"try") {
        return (Kind::Try, Detail::Only);
    }
    if is(word, b"use") {
        return (Kind::LeftOut, Detail::Only);
    }
    if is(word, b"var") {
        return (Kind::VarWord, Detail::Only);
    }
    if is(word, b"xor") {
        return (Kind::Xor, Detail::Chain(ChainOp::LowXor));
    }
    (Kind::Word, Detail::Only)
}

fn four_letters(word: &[u8]) -> (Kind, Detail)
    ensures { result ≡ four_letters word.now }
{
    if is(word, b"case") {
        return (Kind::Case, Detail::Only);
    }
    if is(word, b"echo") {
        return (Kind::Echo, Detail::Only);
    }
    if is(word, b"else") {
        return (Kind::Else, Detail::Only);
    }
    if is(word, b"eval") {
        return (Kind::LeftOut, Detail::Only);
    }
    if is(word, b"exit") {
        return (Kind::Exit, Detail::Only);
    }
    if is(word, b"goto") {
        return (Kind::LeftOut, Detail::Only);
    }
    if is(word, b"list") {
        return (Kind::LeftOut, Detail::Only);
    }
    (Kind::Word, Detail::Only)
}

fn five_letters(word: &[u8]) -> (Kind, Detail)
    ensures { result ≡ five_letters word.now }
{
    if is(word, b"array") {
        return (Kind::Array, Detail::Only);
    }
    if is(word, b"break") {
        return (Kind::Jump, Detail::Break);
    }
    if is(word, b"catch") {
        return (Kind::Catch, Detail::Only);
    }
    if is(word, b"class") {
        return (Kind::Class, Detail::Only);
    }
    if is(word, b"clone") {
        return (Kind::Clone, Detail::Only);
    }
    if is(word, b"const") {
        return (Kind::Const, Detail::Only);
    }
    if is(word, b"empty") {
        return (Kind::Empty, Detail::Only);
    }
    if is(word, b"endif") {
        return (Kind::EndIf, Detail::Only);
    }
    if is(word, b"final") {
        return (Kind::Final, Detail::Only);
    }
    if is(word, b"float") {
        return (Kind::HintWord, Detail::Only);
    }
    if is(word, b"isset") {
        return (Kind::Isset, Detail::Only);
    }
    if is(word, b"print") {
        return (Kind::Print, Detail::Only);
    }
    if is(word, b"throw") {
        return (Kind::Throw, Detail::Only);
    }
    if is(word, b"trait") {
        return (Kind::LeftOut, Detail::Only);
    }
    if is(word, b"unset") {
        return (Kind::Unset, Detail::Only);
    }
    if is(word, b"while") {
        return (Kind::While, Detail::Only);
    }
    if is(word, b"yield") {
        return (Kind::LeftOut, Detail::Only);
    }
    (Kind::Word, Detail::Only)
}

fn six_letters(word: &[u8]) -> (Kind, Detail)
    ensures { result ≡ six_letters word.now }
{
    if is(word, b"elseif") {
        return (Kind::ElseIf, Detail::Only);
    }
    if is(word, b"endfor") {
        return (Kind::EndFor, Detail::Only);
    }
    if is(word, b"global") {
        return (Kind::Global, Detail::Only);
    }
    if is(word, b"object") {
        return (Kind::HintWord, Detail::Only);
    }
    if is(word, b"public") {
        return (Kind::Visibility, Detail::Visible(Visibility::Public));
    }
    if is(word, b"return") {
        return (Kind::Return, Detail::Only);
    }
    if is(word, b"static") {
        return (Kind::Static, Detail::Only);
    }
    if is(word, b"switch") {
        return (Kind::Switch, Detail::Only);
    }
    (Kind::Word, Detail::Only)
}

fn seven_letters(word: &[u8]) -> (Kind, Detail)
    ensures { result ≡ seven_letters word.now }
{
    if is(word, b"declare") {
        return (Kind::LeftOut, Detail::Only);
    }
    if is(word, b"default") {
        return (Kind::Default, Detail::Only);
    }
    if is(word, b"extends") {
        return (Kind::Extends, Detail::Only);
    }
    if is(word, b"finally") {
        return (Kind::LeftOut, Detail::Only);
    }
    if is(word, b"foreach") {
        return (Kind::Foreach, Detail::Only);
    }
    if is(word, b"include") {
        return (Kind::Include, Detail::Include(IncludeKind::Include));
    }
    if is(word, b"private") {
        return (Kind::Visibility, Detail::Visible(Visibility::Private));
    }
    if is(word, b"require") {
        return (Kind::Include, Detail::Include(IncludeKind::Require));
    }
    (Kind::Word, Detail::Only)
}

fn eight_letters(word: &[u8]) -> (Kind, Detail)
    ensures { result ≡ eight_letters word.now }
{
    if is(word, b"abstract") {
        return (Kind::Abstract, Detail::Only);
    }
    if is(word, b"callable") {
        return (Kind::LeftOut, Detail::Only);
    }
    if is(word, b"continue") {
        return (Kind::Jump, Detail::Continue);
    }
    if is(word, b"endwhile") {
        return (Kind::EndWhile, Detail::Only);
    }
    if is(word, b"function") {
        return (Kind::Function, Detail::Only);
    }
    if is(word, b"iterable") {
        return (Kind::HintWord, Detail::Only);
    }
    (Kind::Word, Detail::Only)
}

fn nine_letters(word: &[u8]) -> (Kind, Detail)
    ensures { result ≡ nine_letters word.now }
{
    if is(word, b"__class__") {
        return (Kind::LeftOut, Detail::Only);
    }
    if is(word, b"__trait__") {
        return (Kind::LeftOut, Detail::Only);
    }
    if is(word, b"endswitch") {
        return (Kind::EndSwitch, Detail::Only);
    }
    if is(word, b"insteadof") {
        return (Kind::LeftOut, Detail::Only);
    }
    if is(word, b"interface") {
        return (Kind::Interface, Detail::Only);
    }
    if is(word, b"namespace") {
        return (Kind::LeftOut, Detail::Only);
    }
    if is(word, b"protected") {
        return (Kind::Visibility, Detail::Visible(Visibility::Protected));
    }
    (Kind::Word, Detail::Only)
}

fn ten_letters(word: &[u8]) -> (Kind, Detail)
    ensures { result ≡ ten_letters word.now }
{
    if is(word, b"__method__") {
        return (Kind::LeftOut, Detail::Only);
    }
    if is(word, b"enddeclare") {
        return (Kind::LeftOut, Detail::Only);
    }
    if is(word, b"endforeach") {
        return (Kind::EndForeach, Detail::Only);
    }
    if is(word, b"implements") {
        return (Kind::Implements, Detail::Only);
    }
    if is(word, b"instanceof") {
        return (Kind::InstanceOf, Detail::Only);
    }
    (Kind::Word, Detail::Only)
}

fn twelve_letters(word: &[u8]) -> (Kind, Detail)
    ensures { result ≡ twelve_letters word.now }
{
    if is(word, b"__function__") {
        return (Kind::LeftOut, Detail::Only);
    }
    if is(word, b"include_once") {
        return (Kind::Include, Detail::Include(IncludeKind::IncludeOnce));
    }
    if is(word, b"less_removed") {
        return (Kind::Removed, Detail::Only);
    }
    if is(word, b"require_once") {
        return (Kind::Include, Detail::Include(IncludeKind::RequireOnce));
    }
    (Kind::Word, Detail::Only)
}

fn thirteen_letters(word: &[u8]) -> (Kind, Detail)
    ensures { result ≡ thirteen_letters word.now }
{
    if is(word, b"__namespace__") {
        return (Kind::LeftOut, Detail::Only);
    }
    (Kind::Word, Detail::Only)
}

fn fifteen_letters(word: &[u8]) -> (Kind, Detail)
    ensures { result ≡ fifteen_letters word.now }
{
    if is(word, b"__halt_compiler") {
        return (Kind::LeftOut, Detail::Only);
    }
    (Kind::Word, Detail::Only)
}

/// Which word of the language it is, in any case of its letters.
#[tactic(auto, unfolding(crate::specs::Words::word_sort))]
pub fn word_sort(word: &[u8]) -> (Kind, Detail)
    ensures { result ≡ word_sort word.now }
{
    match word.len() {
        2 => two_letters(word),
        3 => three_letters(word),
        4 => four_letters(word),
        5 => five_letters(word),
        6 => six_letters(word),
        7 => seven_letters(word),
        8 => eight_letters(word),
        9 => nine_letters(word),
        10 => ten_letters(word),
        12 => twelve_letters(word),
        13 => thirteen_letters(word),
        15 => fifteen_letters(word),
        _ => (Kind::Word, Detail::Only),
    }
}
