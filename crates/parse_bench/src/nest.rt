//! The kinds of nesting.

/// What one nesting opens with, what stands inside the innermost, and what each closes with.
#[derive(Clone, Copy, Debug, Drop)]
pub struct Nest {
    pub opens: &'static [u8],
    pub inside: &'static [u8],
    pub closes: &'static [u8],
}

fn enclosing(opens: &'static [u8], inside: &'static [u8], closes: &'static [u8]) -> Option<Nest> {
    Some(Nest {
        opens,
        inside,
        closes,
    })
}

/// The nesting of a word.
pub fn nest_named(word: &str) -> Option<Nest> {
    expression_nest(word)
        .or(operator_nest(word))
        .or(statement_nest(word))
}

// Expressions that enclose expressions.
fn expression_nest(word: &str) -> Option<Nest> {
    match word {
        "parens" => enclosing(b"(", b"1", b")"),
        "arrays" => enclosing(b"[", b"1", b"]"),
        "keys" => enclosing(b"[1=>", b"1", b"]"),
        "lists" => enclosing(b"array(", b"1", b")"),
        "calls" => enclosing(b"f(", b"1", b")"),
        "methods" => enclosing(b"$a->m(", b"1", b")"),
        "static_calls" => enclosing(b"A::m(", b"1", b")"),
        "news" => enclosing(b"new A(", b"1", b")"),
        "indexes" => enclosing(b"$a[", b"1", b"]"),
        "empties" => enclosing(b"empty(", b"1", b")"),
        "issets" => enclosing(b"isset($a[", b"1", b"])"),
        "exits" => enclosing(b"exit(", b"1", b")"),
        "quotes" => enclosing(b"\"{$a[", b"1", b"]}\""),
        "sums" => enclosing(b"(", b"1+1", b")"),
        "comparisons" => enclosing(b"(", b"1==1", b")"),
        "kinds" => enclosing(b"(", b"1 instanceof A", b")"),
        "steps" => enclosing(b"(", b"$a++", b")"),
        "properties" => enclosing(b"(", b"$a->p", b")"),
        _ => None,
    }
}

// Operators over what they stand before, or between.
fn operator_nest(word: &str) -> Option<Nest> {
    match word {
        "nots" => enclosing(b"!", b"1", b""),
        "signs" => enclosing(b"- ", b"1", b""),
        "casts" => enclosing(b"(int)", b"1", b""),
        "silences" => enclosing(b"@", b"1", b""),
        "clones" => enclosing(b"clone ", b"1", b""),
        "prints" => enclosing(b"print ", b"1", b""),
        "includes" => enclosing(b"include ", b"1", b""),
        "assignments" => enclosing(b"$a=", b"1", b""),
        "choices" => enclosing(b"1?", b"1", b":1"),
        "coalesces" => enclosing(b"1??", b"1", b""),
        "choices_in_a_row" => enclosing(b"1?:", b"1", b""),
        "ors_in_a_row" => enclosing(b"1||", b"1", b""),
        "products_in_a_row" => enclosing(b"1*", b"1", b""),
        "accesses_in_a_row" => enclosing(b"", b"$a", b"->p"),
        _ => None,
    }
}

// Statements that enclose statements.
fn statement_nest(word: &str) -> Option<Nest> {
    match word {
        "blocks" => enclosing(b"{", b"", b"}"),
        "ifs" => enclosing(b"if(1)", b";", b""),
        "elses" => enclosing(b"if(1);else ", b";", b""),
        "listed_ifs" => enclosing(b"if(1):", b"", b"endif;"),
        "whiles" => enclosing(b"while(1)", b";", b""),
        "dos" => enclosing(b"do ", b";", b"while(1);"),
        "fors" => enclosing(b"for(;;)", b";", b""),
        "foreaches" => enclosing(b"foreach($a as $b)", b";", b""),
        "switches" => enclosing(b"switch(1){case 1:", b";", b"}"),
        "tries" => enclosing(b"try{", b"", b"}catch(A $a){}"),
        "functions" => enclosing(b"function f(){", b"", b"}"),
        "classes" => enclosing(b"class A{function m(){", b"", b"}}"),
        _ => None,
    }
}
