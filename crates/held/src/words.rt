// The units of rows, by the words of the rows: a byte an item, the last item lowest.
ghost use Rattle.std.specs.Prelude.{◌≡◌};
ghost use Rattle.held.specs.Words.{holds_word};

// Whether a word has at least the units of another of every item.
pub fn word_holds(less: u32, more: u32) -> bool
    ensures { result ≡ holds_word 4 less more }
{
    less.to_le_bytes()
        .iter()
        .zip(more.to_le_bytes().iter())
        .all(|(p, q)| p <= q)
}
