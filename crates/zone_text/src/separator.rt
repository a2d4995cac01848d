//! Text cut at separators.
ghost use Rattle.std.specs.Prelude.{◌≡◌};
ghost use Rattle.model.specs.Basics.{before};
ghost use Rattle.zone_text.specs.Pieces.{separates, behind};

// Three tests with names and no closures, since the definitions speak of them by name.
#[derive(Clone, Copy)]
pub enum Separator {
    /// Ends a line.
    Newline,
    /// Stands between words: a space, a tab or a carriage return.
    Space,
    /// Begins a comment.
    Hash,
}

impl Separator {
    pub fn separates(self, byte: u8) -> bool
        ensures { result ≡ separates self byte }
    {
        match self {
            Separator::Newline => byte == b'\n',
            Separator::Space => matches!(byte, b' ' | b'\t' | b'\r'),
            Separator::Hash => byte == b'#',
        }
    }
}

/// What stands before the first separator, and what stands behind it.
pub fn cut(text: &[u8], separator: Separator) -> (&[u8], &[u8])
    ensures front { result.0.now ≡ before (separates separator) text.now }
    ensures back { result.1.now ≡ behind (separates separator) text.now }
{
    match text.iter().position(|byte| separator.separates(*byte)) {
        Some(end) => (&text[..end], &text[end + 1..]),
        None => (text, &[]),
    }
}
