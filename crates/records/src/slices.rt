// Slices that are read and written totally.
ghost use Rattle.std.specs.Prelude.{◌≡◌, get_or, set};

// The element at a place, or the other one past the end.
pub fn get_or<T: Copy>(s: &[T], at: usize, other: T) -> T
    ensures { result ≡ get_or s.now at other }
{
    s.get(at).copied().unwrap_or(other)
}

// An element written where it fits. An `if`, since what `get_mut` lends leaves the slice without an equation.
pub fn put<T: Copy>(s: &mut [T], at: usize, v: T)
    ensures { s.new ≡ set s.old at v }
{
    if at < s.len() {
        s[at] = v;
    }
}
