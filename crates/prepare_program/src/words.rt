// The words that the program is called with.
ghost use Rattle.std.specs.Prelude.{◌↔◌, IsTrue};
ghost use Rattle.prepare_program.specs.Words.{IsPrepare};

/// Whether the words are `prepare` alone.
pub(crate) fn is_prepare(words: &[String]) -> bool
    ensures { IsTrue result ↔ IsPrepare words.now }
{
    if let [word] = words {
        word.as_str() == "prepare"
    } else {
        false
    }
}
