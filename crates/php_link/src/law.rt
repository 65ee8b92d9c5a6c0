// Numberings.

ghost use Rattle.std.specs.Prelude.{ℕ, List};
ghost use Rattle.php_state.specs.Linked.{AreApart};
ghost use Rattle.php_link.specs.Names.{Grows, first_names};
ghost use Rattle.php_link.specs.Numberings.{HasNumbering};

/// There is a numbering with given names of which none comes twice and the first are the superglobals, and with given texts of static variables.
#[tactic(auto, using(crate::proofs::Numbering::numbering))]
pub fn a_numbering_exists()
    ensures { (names statics : List (List ℕ)) → AreApart names → Grows first_names names → AreApart statics → HasNumbering names statics }
{}
