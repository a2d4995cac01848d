//! The words that name operations.
ghost use Rattle.std.specs.Prelude.{◌≡◌};
ghost use Rattle.zone_text.specs.Lines.{verb_of};

// A match on words in `parse_line` would be no plainer: the definitions state apart what a word names and what stands behind it.
#[derive(Clone, Copy, PartialEq, Eq, Debug)]
pub enum Verb {
    Set,
    Enter,
    Leave,
    Bind,
    Refer,
    Resolve,
    ResolveAll,
}

impl Verb {
    /// The operation that a word names.
    pub fn from_word(word: &[u8]) -> Option<Verb>
        ensures { result ≡ verb_of word.now }
    {
        match word {
            b"setting" => Some(Verb::Set),
            b"enter" => Some(Verb::Enter),
            b"leave" => Some(Verb::Leave),
            b"bind" => Some(Verb::Bind),
            b"reference" => Some(Verb::Refer),
            b"resolve" => Some(Verb::Resolve),
            b"resolve-all" => Some(Verb::ResolveAll),
            _ => None,
        }
    }
}
