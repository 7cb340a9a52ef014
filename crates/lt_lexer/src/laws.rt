//! What holds of every text.

ghost use Rattle.std.specs.Prelude.{◌≡◌, ◌⊎◌, ℕ, List};
ghost use Rattle.lt_lexer.specs.Tokenization.{IsTokenization, IsRefusal};
ghost use Rattle.lt_ast.specs.declared.sign.Sign.{Sign};
ghost use Rattle.lt_lexer.specs.Source.{IsTokenOf, IsSign, StandInTurn};
ghost use Rattle.lt_lexer.specs.Apart.{ReadsApart};
ghost use Rattle.lt_lexer.specs.declared.token.Token.{Token};
ghost use Rattle.lt_lexer.specs.declared.refusal.LexRefusal.{LexRefusal};

/// A text has one list of tokens, or one refusal, and never both.
pub fn one_answer_belongs_to_a_text()
    ensures some { (text : List ℕ) →
        ((tokens : List Token) × IsTokenization text tokens)
        ⊎ ((refusal : LexRefusal) × IsRefusal text refusal) }
    ensures one_list { (text : List ℕ) (tokens others : List Token) →
        IsTokenization text tokens → IsTokenization text others → tokens ≡ others }
    ensures one_refusal { (text : List ℕ) (refusal other : LexRefusal) →
        IsRefusal text refusal → IsRefusal text other → refusal ≡ other }
    ensures not_both { (text : List ℕ) (tokens : List Token) (refusal : LexRefusal) →
        IsTokenization text tokens → IsRefusal text refusal → ⊥ }
{}

/// The tokens of a text stand one after another, each where its span says, and what stands between
/// them and at both ends, if anything, are blanks and comments.
pub fn tokens_stand_in_turn()
    ensures { (text : List ℕ) (tokens : List Token) →
        IsTokenization text tokens → StandInTurn text 0 tokens }
{}

/// A token of a text is one sign, and no other.
pub fn a_token_is_one_sign()
    ensures some { (text : List ℕ) (token : Token) → IsTokenOf text token → (sign : Sign) ×
        IsSign text token sign }
    ensures one { (text : List ℕ) (token : Token) (sign other : Sign) →
        IsTokenOf text token → IsSign text token sign → IsSign text token other → sign ≡ other }
{}

/// The tokens of a text, written one after another with a blank byte after each, are read as the
/// same tokens.
pub fn tokens_apart_are_the_same()
    ensures { ReadsApart }
{}
