//! The file of the looks of a study.
ghost use Rattle.std.specs.Prelude.{◌≡◌, ℕ, List, None, IfSome};
ghost use Rattle.command_words.specs.WordBytes.{words_in};
ghost use Rattle.study_cli.specs.StudyOutcome.{NamesStore};

use command_words::read_study;

/// Returns the path that the option `store` names, if the words are those of a study.
pub fn store_path(words: &[String]) -> Option<&str>
    ensures path { IfSome result (λ path. NamesStore (words_in words.now) path.now) }
    ensures none { result ≡ None → (path : List ℕ) → ¬ NamesStore (words_in words.now) path }
{
    match read_study(words) {
        Ok(call) => call.store,
        Err(_) => None,
    }
}
