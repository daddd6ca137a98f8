ghost use Rattle.std.specs.Prelude.{◌≡◌, ◌⊎◌, ℕ, List, map, IsUtf8};
ghost use Rattle.nb_lexer.specs.declared.word.Word.{Word};
ghost use Rattle.nb_lexer.specs.declared.token.Token.{Token};
ghost use Rattle.nb_lexer.specs.declared.fault.LexError.{LexError};
ghost use Rattle.nb_lexer.specs.Lexes.{AreTokens, HasWords, Reads};
ghost use Rattle.nb_lexer.specs.Faults.{IsFault};
ghost use Rattle.nb_lexer.specs.Written.{Spaced, spaced_word, spaced_text, AreApart, AreWritable};

/// A law, with nothing to run: a text has tokens or a first fault, not both, and one of them alone.
pub fn law_of_tokens()
    ensures some { (text : List ℕ) → IsUtf8 text
        → ((ts : List Token) × AreTokens text ts) ⊎ ((e : LexError) × IsFault text e) }
    ensures one { (text : List ℕ) (ts us : List Token) (ws vs : List Word) → Reads text ts ws → Reads text us vs
        → (ts ≡ us) × (ws ≡ vs) }
    ensures one_fault { (text : List ℕ) (e g : LexError) → IsFault text e → IsFault text g → e ≡ g }
    ensures never_both { (text : List ℕ) (ts : List Token) (e : LexError) → AreTokens text ts → IsFault text e
        → ⊥ }
{}

/// A law, with nothing to run: words that are written so that none goes on with the one before it are the words
/// of what is written.
pub fn law_of_written_words()
    ensures { (ws : List Spaced) → AreWritable ws → AreApart ws → HasWords (spaced_text ws) (map spaced_word ws) }
{}
