// The work words cleared, the store copied into them and back: functions, since docs/CONTRACTS.md names the three, and wrong answers of
// `clear` and `copy_out` (last_word_left, store_from_the_last_word) are tried by name. The copies go cell by cell, since `copy_from_slice`
// between two lent slices asks the C library for memmove, which callers in C need not have.
ghost use Rattle.std.specs.Prelude.{◌≡◌, ◌≤◌, ◌++◌, length, replicate, take, drop};

// Every word 0.
pub fn clear(words: &mut [u64])
    ensures { words.new ≡ replicate (length words.old) 0 }
{
    words.fill(0);
}

// The store at the front of the work words, the rest as it was.
pub fn copy_in(work: &mut [u64], store: &[u64])
    requires { length store.now ≤ length work.old }
    ensures { work.new ≡ store.now ++ drop (length store.now) work.old }
{
    for (i, cell) in store.iter().enumerate() {
        work[i] = *cell;
    }
}

// The store back from the front of the work words.
pub fn copy_out(store: &mut [u64], work: &[u64])
    requires { length store.old ≤ length work.now }
    ensures { store.new ≡ take (length store.old) work.now }
{
    for (i, cell) in store.iter_mut().enumerate() {
        *cell = work[i];
    }
}
