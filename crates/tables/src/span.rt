//! A part of a script's text.
ghost use Rattle.std.specs.Prelude.{◌≡◌, ◌≤◌, cond};
ghost use Rattle.tables.specs.Spans.{Spanned};

/// A part of a script's text: its type keeps the start at most the end.
// A ghost field and no model: with one, the check does not cover a function that uses a declaration with a span twice.
#[derive(Clone, Copy, PartialEq, Eq)]
pub struct Span {
    start: u32,
    end: u32,
    ghost ordered: { start ≤ end },
}

impl Span {
    /// The span from `start` to `end`, unless it would end before it starts.
    pub fn new(start: u32, end: u32) -> Option<Span>
        ensures { Spanned (λ s. s.start) (λ s. s.end) start end result }
    {
        if start <= end {
            Some(Span { start, end })
        } else {
            None
        }
    }

    pub fn start(&self) -> u32
        ensures { result ≡ self.now.start }
    {
        self.start
    }

    pub fn end(&self) -> u32
        ensures { result ≡ self.now.end }
    {
        self.end
    }
}
