//! What holds of the tokens and faults of texts. These functions do nothing; their contracts are the
//! laws.
ghost use Rattle.std.specs.Prelude.{◌≡◌, ◌↔◌, List, ℕ, length, All, Ok, Err};
ghost use Rattle.text_scan.specs.declared.token.Token.{Token};
ghost use Rattle.text_scan.specs.declared.fault.ScanFault.{ScanFault};
ghost use Rattle.text_scan.specs.Tokens.{scanned};
ghost use Rattle.text_scan.specs.Grammar.{HasTokens, HasFault, Placed, IsSpelled};

/// By the grammar a text has just the tokens, or else the fault, that reading it gives.
///
/// It has one list of tokens or one fault, and not both.
pub fn reading_keeps_the_grammar()
    ensures tokens { (text : List ℕ) (tokens : List Token) →
        HasTokens text tokens ↔ (scanned text ≡ Ok tokens) }
    ensures fault { (text : List ℕ) (fault : ScanFault) →
        HasFault text fault ↔ (scanned text ≡ Err fault) }
{}

/// Tokens stand in their text one after another, with the bytes of their kinds.
pub fn tokens_are_pieces()
    ensures placed { (text : List ℕ) (tokens : List Token) →
        HasTokens text tokens → Placed 0 (length text) tokens }
    ensures spelled { (text : List ℕ) (tokens : List Token) →
        HasTokens text tokens → All (IsSpelled text) tokens }
{}
