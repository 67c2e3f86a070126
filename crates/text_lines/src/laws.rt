//! Laws of lines and words: what is spelt is read.
ghost use Rattle.std.specs.Prelude.{◌≡◌, [], ◌∷◌, ◌++◌, ℕ, List, true};
ghost use Rattle.std.specs.List.{AllByRecursion};
ghost use Rattle.text_lines.specs.Lines.{rows_of};
ghost use Rattle.text_lines.specs.Words.{is_blank, words_of, after_word};
ghost use Rattle.text_lines.specs.Spelling.{line_spelt, text_of, numbered, IsWord, IsLine};

/// Lines of words, spelt with one blank between words and a line feed after each line, read back as these lines with
/// their numbers, and each as its words.
#[tactic(auto, using(crate::proofs::Spelt::rows_of_text, crate::proofs::Spelt::words_of_line))]
pub fn spelt_lines_read_back()
    ensures lines { (lines : List (List (List ℕ))) → AllByRecursion IsLine lines → rows_of (text_of lines) ≡ numbered 0 lines }
    ensures words { (words : List (List ℕ)) → AllByRecursion IsWord words → words_of (line_spelt words) ≡ words }
{}

/// The first word is what is before the first blank, which is a space or a tab, and the rest of the line is all that follows the
/// word. Blanks in front of the rest, or at the end of a line, change no word.
#[tactic(auto, using(crate::proofs::Spelt::word_ends))]
pub fn words_end_at_blanks()
    ensures word { (b : ℕ) (word rest : List ℕ) → is_blank b ≡ true → IsWord word
        → words_of (word ++ b ∷ rest) ≡ word ∷ words_of rest }
    ensures rest { (b : ℕ) (word rest : List ℕ) → is_blank b ≡ true → IsWord word
        → after_word (word ++ b ∷ rest) ≡ b ∷ rest }
    ensures blank_word { (b : ℕ) (rest : List ℕ) → is_blank b ≡ true → words_of (b ∷ rest) ≡ words_of rest }
    ensures blank_rest { (b : ℕ) (rest : List ℕ) → is_blank b ≡ true → after_word (b ∷ rest) ≡ after_word rest }
    ensures blank_end { (b : ℕ) (line : List ℕ) → is_blank b ≡ true → words_of (line ++ b ∷ []) ≡ words_of line }
{}
