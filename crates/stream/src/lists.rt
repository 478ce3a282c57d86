// The words of a part, and whether words are all 0.
ghost use Rattle.std.specs.Prelude.{◌≤◌, ◌≡◌, length};
ghost use Rattle.stream.specs.Lists.{words_of, all_zero};

// As many words of a part as there is room for. By their numbers, and not by a `zip` with the part: past its end a word reads as 0.
pub fn read(part: &[u8], into: &mut [u64])
    requires { length into.old ≤ 65535 }
    ensures { into.new ≡ words_of part.now (length into.old) }
{
    for (i, word) in into.iter_mut().enumerate() {
        *word = records::u64_at(part, i * 8);
    }
}

// Whether all are 0.
pub fn are_clear(words: &[u64]) -> bool
    ensures { result ≡ all_zero words.now }
{
    words.iter().all(|word| *word == 0)
}
