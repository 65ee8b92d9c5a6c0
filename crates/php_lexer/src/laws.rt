//! Laws of the definitions, each as the contract of a function that does nothing.

ghost use Rattle.php_lexer.specs.Places.{PlacesNeverFall};
ghost use Rattle.php_lexer.specs.Tokens.{FaultIsAlone, HasOneList};

/// A text has at most one list of tokens.
pub fn one_list()
    ensures { HasOneList }
{}

/// A text with a first fault has no tokens, and no other first fault.
pub fn one_fault()
    ensures { FaultIsAlone }
{}

/// No token of a text stands before the one that comes before it in the list.
pub fn places_never_fall()
    ensures { PlacesNeverFall }
{}
