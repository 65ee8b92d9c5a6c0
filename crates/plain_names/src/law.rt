//! What holds of every tree of a text's tokens, for which no code runs.
ghost use Rattle.php_lexer.specs.Bytes.{Text};
ghost use Rattle.php_lexer.specs.Marks.{Mark};
ghost use Rattle.php_lexer.specs.Tokens.{IsTokens};
ghost use Rattle.std.specs.Prelude.{List};
ghost use Rattle.php_tree.specs.declared.file.FileTree.{FileTree};
ghost use Rattle.php_parser.specs.Verdict.{IsFileTree};
ghost use Rattle.app_load.specs.Judged.{file_findings};
ghost use Rattle.plain_names.specs.Words.{ArePlain};

/// No colon stands in the name of a function or a class of a tree of a text's tokens.
pub fn names_are_plain()
    ensures { (text : Text) (ms : List Mark) (tree : FileTree) → IsTokens text ms → IsFileTree ms tree → ArePlain (file_findings tree) }
{}
