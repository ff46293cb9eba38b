// Little-endian numbers in bytes.

#![tactic(auto)]

ghost use Rattle.std.specs.Prelude.{◌≡◌, ℕ, ◌++◌, ◌+◌, ◌*◌, ◌≤◌, List, length, take, drop};
ghost use Rattle.lists.specs.Regions.{part};
ghost use Rattle.encoding.specs.Encoding.{little, number, littles, numbers};
ghost use Rattle.encoding.specs.Little.{LittleLaws, little-laws};

// A number that is written in WIDTH bytes, the lowest byte first.
pub trait Little: Copy {
    ghost WIDTH: { ℕ };

    // The bytes of a number, and the number of bytes.
    ghost bytes: { Self → List ℕ };

    ghost of_bytes: { List ℕ → Self };

    // The same of numbers that stand one after the other.
    ghost all_bytes: { List Self → List ℕ };

    ghost all_of: { ℕ → List ℕ → List Self };

    const WIDTH: usize;

    // Writes the number over WIDTH bytes.
    fn write(self, out: &mut [u8])
        requires { length out.old ≡ WIDTH }
        ensures { out.new ≡ bytes self };

    // The number that WIDTH bytes are.
    fn read(s: &[u8]) -> Self
        requires { length s.now ≡ WIDTH }
        ensures { result ≡ of_bytes s.now };

    ghost laws: { LittleLaws WIDTH bytes of_bytes all_bytes all_of };
}

impl Little for u32 {
    ghost WIDTH = { 4 };

    ghost bytes = { little 4 };

    ghost of_bytes = { number };

    ghost all_bytes = { littles 4 };

    ghost all_of = { numbers 4 };

    const WIDTH: usize = 4;

    fn write(self, out: &mut [u8]) {
        out.copy_from_slice(&self.to_le_bytes());
    }

    fn read(s: &[u8]) -> u32 {
        u32::from_le_bytes([s[0], s[1], s[2], s[3]])
    }

    ghost laws = { little-laws 4 };
}

impl Little for u64 {
    ghost WIDTH = { 8 };

    ghost bytes = { little 8 };

    ghost of_bytes = { number };

    ghost all_bytes = { littles 8 };

    ghost all_of = { numbers 8 };

    const WIDTH: usize = 8;

    fn write(self, out: &mut [u8]) {
        out.copy_from_slice(&self.to_le_bytes());
    }

    fn read(s: &[u8]) -> u64 {
        u64::from_le_bytes([s[0], s[1], s[2], s[3], s[4], s[5], s[6], s[7]])
    }

    ghost laws = { little-laws 8 };
}

// Puts a number into the bytes at a place.
pub fn put<T: Little>(out: &mut [u8], at: usize, n: T)
    requires { at + T.WIDTH ≤ length out.old }
    ensures { out.new ≡ take at out.old ++ T.bytes n ++ drop (at + T.WIDTH) out.old }
{
    n.write(&mut out[at..at + T::WIDTH]);
}

// The number in the bytes at a place.
pub fn get<T: Little>(s: &[u8], at: usize) -> T
    requires { at + T.WIDTH ≤ length s.now }
    ensures { result ≡ T.of_bytes (part at T.WIDTH s.now) }
{
    T::read(&s[at..at + T::WIDTH])
}

// Puts the first n numbers one after the other from a place on.
pub fn put_all<T: Little>(out: &mut [u8], at: usize, v: &[T], n: usize)
    requires n_in_bounds { n ≤ length v.now }
    requires n_in_bounds_2 { at + T.WIDTH * n ≤ length out.old }
    ensures { out.new ≡ take at out.old ++ T.all_bytes (take n v.now)
        ++ drop (at + T.WIDTH * n) out.old }
{
    for i in 0..n {
        put(out, at + T::WIDTH * i, v[i]);
    }
}

// Reads n numbers that stand one after the other from a place on.
pub fn get_all<T: Little>(s: &[u8], at: usize, out: &mut [T], n: usize)
    requires n_in_bounds { at + T.WIDTH * n ≤ length s.now }
    requires n_in_bounds_2 { n ≤ length out.old }
    ensures { out.new ≡ T.all_of n (drop at s.now) ++ drop n out.old }
{
    for i in 0..n {
        out[i] = get(s, at + T::WIDTH * i);
    }
}
