// The places whose objects do not move.
ghost use Rattle.std.specs.Prelude.{◌≡◌, ◌+◌, ◌-◌, ◌<◌, ◌≤◌, ◌⊎◌, ◌||◌, ℕ, []};
ghost use Rattle.arrayvec.specs.ArrayVec.{array_vec_len};
ghost use Rattle.cheney.specs.Spans.{IsOrdered, in_span, start_at, end_at};

use arrayvec::ArrayVec;
use word_mem::Span;

/// The spans whose objects do not move, at most 72, in order of place.
#[derive(Drop)]
pub struct Stay {
    pub spans: ArrayVec<Span, 72>,
    pub ghost ordered: { IsOrdered spans.items },
}

impl Stay {
    ghost use Rattle.cheney.specs.Ranges.{stays};

    /// No span: everything moves.
    pub fn none() -> Stay
        ensures { result.spans.items ≡ [] }
    {
        Stay {
            spans: ArrayVec::new(),
        }
    }

    /// The same spans: a caller keeps its own beside a collection's.
    pub fn copied(&self) -> Stay
        ensures places { (q : ℕ) → stays result q ≡ stays self.now q }
        ensures len { array_vec_len result.spans ≡ array_vec_len self.now.spans }
    {
        let mut spans = ArrayVec::new();
        let _ = spans.try_extend_from_slice(self.spans.as_slice());
        Stay { spans }
    }

    /// One span more.
    pub fn with(&self, span: Span) -> Stay
        requires { array_vec_len self.now.spans < 72 }
        ensures places { (q : ℕ) → stays result q ≡ (stays self.now q || in_span span q) }
        ensures len { array_vec_len result.spans ≡ array_vec_len self.now.spans + 1 }
    {
        let mut stay = Stay::none();
        let mut carried = span;
        for next in self.spans.as_slice() {
            let (first, second) = in_order(carried, *next);
            stay.put(first);
            carried = second;
        }
        stay.put(carried);
        stay
    }

    // One span at the end, which begins no earlier than any other. It is kept to end no earlier, too: the places that it
    // gains are those of spans before it.
    fn put(&mut self, span: Span)
        requires room { array_vec_len self.old.spans < 72 }
        requires after { (i : ℕ) → i < array_vec_len self.old.spans → start_at self.old.spans.items i ≤ span.start }
        ensures places { (q : ℕ) → stays self.new q ≡ (stays self.old q || in_span span q) }
        ensures len { array_vec_len self.new.spans ≡ array_vec_len self.old.spans + 1 }
        ensures begin { (i : ℕ) → i < array_vec_len self.new.spans → start_at self.new.spans.items i ≤ span.start }
    {
        let end = self.end_with(span.end);
        self.spans.push(Span {
            start: span.start,
            end,
        });
    }

    // The later of an end and that of the last span.
    fn end_with(&self, end: u64) -> u64
        ensures least { end ≤ result }
        ensures last { (i : ℕ) → i < array_vec_len self.now.spans → end_at self.now.spans.items i ≤ result }
        ensures known { (result ≡ end) ⊎ ((0 < array_vec_len self.now.spans) × (result ≡ end_at self.now.spans.items (array_vec_len self.now.spans - 1))) }
    {
        let spans = self.spans.as_slice();
        let count = spans.len();
        if count == 0 {
            return end;
        }
        let last = spans[count - 1].end;
        if last <= end {
            return end;
        }
        last
    }

    /// Whether what lies at the place stays.
    pub fn has(&self, place: u64) -> bool
        ensures { result ≡ stays self.now place }
    {
        let spans = self.spans.as_slice();
        let count = spans.len();
        if count == 0 {
            return false;
        }
        if place < spans[0].start {
            return false;
        }
        if spans[count - 1].end <= place {
            return false;
        }
        let mut low = 0;
        let mut high = count;
        while high - low > 1 {
            let middle = low + (high - low) / 2;
            if spans[middle].start <= place {
                low = middle;
            } else {
                high = middle;
            }
        }
        place < spans[low].end
    }
}

// Two spans, the one that begins earlier first.
fn in_order(a: Span, b: Span) -> (Span, Span)
    ensures ordered { result.0.start ≤ result.1.start }
    ensures same { ((result.0 ≡ a) × (result.1 ≡ b)) ⊎ ((result.0 ≡ b) × (result.1 ≡ a)) }
{
    if a.start <= b.start { (a, b) } else { (b, a) }
}
