// What is relocated in place: parts of the memory, and lists beside it.
ghost use Rattle.std.specs.Prelude.{◌≡◌};
ghost use Rattle.block_slide.specs.Parts.{span_of};

use word_mem::Span;

/// A part of the memory whose words are relocated.
#[derive(Clone, Copy)]
pub enum Part {
    /// Whole objects side by side.
    Objects(Span),
    /// Words such as those of a stack, and roots.
    Words(Span),
    /// Words that are places, such as links from block to block.
    Links(Span),
}

impl Part {
    /// The places of the part.
    #[inline]
    pub(crate) fn span(self) -> Span
        ensures { result ≡ span_of self }
    {
        match self {
            Part::Objects(span) | Part::Words(span) | Part::Links(span) => span,
        }
    }
}
