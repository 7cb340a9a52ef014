//! Laws of the grammar, and of whole texts, that reading shows.

ghost use Rattle.std.specs.Prelude.{◌≡◌, ◌⊎◌, ℕ, List};
ghost use Rattle.lt_ast.specs.Syntax.{Declaration, Exp};
ghost use Rattle.lt_grammar.specs.Program.{SpellsAtMostOne};
ghost use Rattle.lt_grammar.specs.Text.{IsExpressionOf, IsProgramOf};
ghost use Rattle.lt_parser.specs.Text.{IsExpressionRefusal, IsRefusal};
ghost use Rattle.lt_parser.specs.declared.refusal.ParseRefusal.{ParseRefusal};

/// Tokens spell at most one program.
#[tactic(auto, using(crate::proofs::Complete::at_most_one))]
pub fn at_most_one_program()
    ensures { SpellsAtMostOne }
{}

/// A text spells one program, or has one refusal, and never both.
pub fn one_answer_belongs_to_a_text()
    ensures some { (text : List ℕ) →
        ((x : List Declaration) × IsProgramOf text x)
        ⊎ ((refusal : ParseRefusal) × IsRefusal text refusal) }
    ensures one_program { (text : List ℕ) (x y : List Declaration) →
        IsProgramOf text x → IsProgramOf text y → x ≡ y }
    ensures one_refusal { (text : List ℕ) (refusal other : ParseRefusal) →
        IsRefusal text refusal → IsRefusal text other → refusal ≡ other }
    ensures not_both { (text : List ℕ) (x : List Declaration) (refusal : ParseRefusal) →
        IsProgramOf text x → IsRefusal text refusal → ⊥ }
{}

/// A text is one expression, or has one refusal as an expression, and never both.
pub fn one_answer_belongs_to_an_expression()
    ensures some { (text : List ℕ) →
        ((x : Exp) × IsExpressionOf text x)
        ⊎ ((refusal : ParseRefusal) × IsExpressionRefusal text refusal) }
    ensures one_expression { (text : List ℕ) (x y : Exp) →
        IsExpressionOf text x → IsExpressionOf text y → x ≡ y }
    ensures one_refusal { (text : List ℕ) (refusal other : ParseRefusal) →
        IsExpressionRefusal text refusal → IsExpressionRefusal text other → refusal ≡ other }
    ensures not_both { (text : List ℕ) (x : Exp) (refusal : ParseRefusal) →
        IsExpressionOf text x → IsExpressionRefusal text refusal → ⊥ }
{}
