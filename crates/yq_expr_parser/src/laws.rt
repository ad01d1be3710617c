//! Laws of expressions.
ghost use Rattle.std.specs.Prelude.{◌≡◌, ◌↔◌, ℕ, List};
ghost use Rattle.yq_expr_parser.{specs.Outcome.{ComesTo, Derives}, specs.Parse.outcome};
ghost use Rattle.yq_semantics.{specs.Parsing.Outcome, specs.Program.Program, specs.Tokens.{AreTokens, Token}};

/// No text has two lists of tokens.
pub fn one_token_list()
    ensures { (text : List ℕ) (ts us : List Token) → AreTokens ts text → AreTokens us text →
        ts ≡ us }
{}

/// No text derives two programs.
pub fn one_program()
    ensures { (text : List ℕ) (p q : Program) → Derives text p → Derives text q → p ≡ q }
{}

/// A text comes to one outcome, which is the program that it derives and that asks for no pattern, or else
/// the first refusal in order: by the grammar and the causes of refusals alone, without a call.
pub fn one_outcome()
    ensures outcome { (text : List ℕ) (o : Outcome) → (outcome text ≡ o) ↔ ComesTo text o }
    ensures one { (text : List ℕ) (o q : Outcome) → ComesTo text o → ComesTo text q → o ≡ q }
    ensures total { (text : List ℕ) → (o : Outcome) × ComesTo text o }
{}
