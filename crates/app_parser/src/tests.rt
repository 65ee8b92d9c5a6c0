use super::*;
use php_lexer::lex;
use std::test::Fail;

// The statements of a text, by any parser; `None` where there is no tree.
fn statement_count<P: Parser>(alloc: Global, parser: &P, text: &[u8]) -> Option<usize> {
    if text.len() > 1_048_576 {
        return None;
    }
    let Ok(tokens) = lex(alloc, text) else {
        return None;
    };
    match parser.parse(alloc, text, &tokens) {
        Ok(tree) => Some(tree.stmts.len()),
        Err(_) => None,
    }
}

#[test]
fn texts_have_trees(rt: HostRuntime) -> Result<(), Fail> {
    let alloc = rt.alloc();
    assert_eq!(rt;
        statement_count(alloc, &PhpParser, b"<?php echo 1; f();"),
        Some(2)
    );
    assert_eq!(rt; statement_count(alloc, &PhpParser, b"<?php goto a;"), None);
    Ok(())
}
