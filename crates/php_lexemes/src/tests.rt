use super::*;
use php_grammar::token::Kind;
use php_lexer::lex;
use std::test::Fail;

#[test]
fn each_name_stands_once_and_each_token_is_one_lexeme(rt: HostRuntime) -> Result<(), Fail> {
    let alloc = rt.alloc();
    let text: &[u8] = b"<?php $a = $b; echo $a;";
    match lex(alloc, text) {
        Ok(tokens) => {
            let count = tokens.as_slice().len();
            let numbered = lexemes(alloc, tokens.as_slice())?;
            assert_eq!(rt; numbered.list.as_slice().len(), count);
            assert_eq!(rt; numbered.names.as_slice().len(), 2);
        }
        Err(_) => assert_eq!(rt; 0, 1),
    }
    Ok(())
}

#[test]
fn words_are_reserved_in_any_case(rt: HostRuntime) -> Result<(), Fail> {
    assert!(rt; matches!(word_sort(b"GoTo").0, Kind::LeftOut));
    assert!(rt; !matches!(word_sort(b"gotos").0, Kind::LeftOut));
    Ok(())
}
