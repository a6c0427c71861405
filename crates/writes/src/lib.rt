// Words written one after another into any list of words, from an index on: each call answers where the next word goes.
// One function over what is written would save nothing: a store, a fill and a copy are a line each, and each the fastest of its kind.
#![tactic(auto)]

ghost use Rattle.std.specs.Prelude.{◌≡◌, [], ◌∷◌, ◌+◌, ◌<◌, ◌≤◌, length, replicate};
ghost use Rattle.writes.specs.Written.{written};

// Writes one word.
pub fn put_word(out: &mut [u16], at: usize, v: u16) -> usize
    requires { at < length out.old }
    ensures value { result ≡ at + 1 }
    ensures out_after { out.new ≡ written out.old at (v ∷ []) }
{
    out[at] = v;
    at + 1
}

// Writes n zeros.
pub fn put_zeros(out: &mut [u16], at: usize, n: usize) -> usize
    requires { at + n ≤ length out.old }
    ensures value { result ≡ at + n }
    ensures out_after { out.new ≡ written out.old at (replicate n 0) }
{
    out[at..at + n].fill(0);
    at + n
}

// Writes the words of src, one by one: where a slice is copied at once the archive for C asks for memmove.
pub fn put_words(out: &mut [u16], at: usize, src: &[u16]) -> usize
    requires { at + length src.now ≤ length out.old }
    ensures value { result ≡ at + length src.now }
    ensures out_after { out.new ≡ written out.old at src.now }
{
    for k in 0..src.len() {
        out[at + k] = src[k];
    }
    at + src.len()
}
