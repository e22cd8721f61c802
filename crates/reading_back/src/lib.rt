//! What is printed is read back: the printer's law and the reader's, joined.
#![tactic(auto)]

ghost use Rattle.reading_back.specs.Laws.{PrintedIsRead};

/// The text of a printable module, of a depth of at most 512, is read as that module with its parentheses.
#[tactic(auto, using(crate::proofs::Joined::printed_is_read))]
pub fn printed_is_read()
    ensures { PrintedIsRead }
{}
