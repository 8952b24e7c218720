//! Laws of the texts: theorems about the definitions, on functions that do nothing.

ghost use Rattle.std.specs.Prelude.{ℕ, ◌≡◌, List, Some};
ghost use Rattle.trace_text.specs.Reading.{Read, reading_of, reading_up_to, first_word};
ghost use Rattle.trace_text.specs.Text.{canonical_of};
ghost use Rattle.trace_text.specs.Traces.{heap_word, IsTrace};
ghost use Rattle.trace_text.specs.declared.trace.Trace.{Trace};
ghost use Rattle.trace_text.specs.declared.trace.Version.TheVariants.{One, Two};

/// Whatever is read is a trace that a text can name.
pub fn read_is_named()
    ensures { (text : List ℕ) (t : Trace) → reading_of text ≡ Read t → IsTrace t }
{}

/// Reading what was printed gives the trace again.
///
/// There is one reading of each text, since `reading_of` is a function of its bytes: no text is read
/// as two traces, and a text that is refused is accepted by no other reading.
pub fn printed_is_read()
    ensures { (t : Trace) → IsTrace t → reading_of (canonical_of t) ≡ Read t }
{}

/// A text that was canonical is printed as it was.
pub fn canonical_is_printed()
    ensures { (text : List ℕ) (t u : Trace)
        → IsTrace t → text ≡ canonical_of t → reading_of text ≡ Read u → canonical_of u ≡ text }
{}

/// A trace is of the version that the first word of its text says.
pub fn version_is_said()
    ensures { (text : List ℕ) (t : Trace) → reading_of text ≡ Read t → first_word text ≡ Some (heap_word t.version) }
{}

/// A text that doesn't begin with the word `heap2` is read as where version 1 alone is known: as the
/// same trace, or refused at the same line for the same cause. And what is read there is a trace of
/// version 1, so that it has no resize.
pub fn earlier_texts_are_read_as_before()
    ensures same { (text : List ℕ)
        → (first_word text ≡ Some (heap_word Two) → ⊥) → reading_of text ≡ reading_up_to One text }
    ensures one { (text : List ℕ) (t : Trace) → reading_up_to One text ≡ Read t → t.version ≡ One }
{}
