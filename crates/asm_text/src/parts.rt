//! Parts of a line: what stands behind a text, and words, which stand between spaces.

ghost use Rattle.std.specs.Prelude.{◌≡◌, ◌++◌, ◌==◌, not, List, ℕ, IfSome, MatchOption, length, take_while};
ghost use Rattle.asm_text.specs.Lines.{Lacks};
ghost use Rattle.asm_text.specs.Inner.Reading.{Breaks};

/// What follows another text in a text that begins with that.
pub(crate) fn after<'t>(text: &'t [u8], front: &[u8]) -> Option<&'t [u8]>
    ensures some { IfSome result (λ rest. text.now ≡ front.now ++ rest.now) }
    ensures only { (rest : List ℕ) → text.now ≡ front.now ++ rest → MatchOption result ⊥ (λ found. found.now ≡ rest) }
{
    text.strip_prefix(front)
}

// How many bytes stand before the first space, or all where there is none.
fn word_len(text: &[u8]) -> usize
    ensures { result ≡ length (take_while (λ byte. not (byte == 32)) text.now) }
{
    text.iter().take_while(|byte| **byte != b' ').count()
}

/// What stands before the first space, and what stands from there on.
pub(crate) fn first_word(text: &[u8]) -> (&[u8], &[u8])
    ensures parts { text.now ≡ result.0.now ++ result.1.now }
    ensures breaks { Breaks result.1.now }
    ensures only { (word rest : List ℕ) → Lacks 32 word → Breaks rest → text.now ≡ word ++ rest →
        (result.0.now ≡ word) × (result.1.now ≡ rest) }
{
    text.split_at(word_len(text))
}
