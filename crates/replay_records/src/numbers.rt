// Numbers out of bytes, the lowest byte first.

// A number that is stored.
pub trait Number: Copy + Default + PartialEq {
    // The number that the bytes begin with and the bytes behind it, if they are enough.
    fn split(bytes: &[u8]) -> Option<(Self, &[u8])>;
}

impl Number for u8 {
    fn split(bytes: &[u8]) -> Option<(u8, &[u8])> {
        let (first, rest) = bytes.split_first()?;
        Some((*first, rest))
    }
}

impl Number for u32 {
    fn split(bytes: &[u8]) -> Option<(u32, &[u8])> {
        let (first, rest) = bytes.split_first_chunk()?;
        Some((u32::from_le_bytes(*first), rest))
    }
}

impl Number for u64 {
    fn split(bytes: &[u8]) -> Option<(u64, &[u8])> {
        let (first, rest) = bytes.split_first_chunk()?;
        Some((u64::from_le_bytes(*first), rest))
    }
}

impl Number for f64 {
    fn split(bytes: &[u8]) -> Option<(f64, &[u8])> {
        let (bits, rest) = u64::split(bytes)?;
        Some((float_of(bits), rest))
    }
}

// The float of 64 bits; every NaN is the same.
pub fn float_of(bits: u64) -> f64 {
    if 0x7ff0_0000_0000_0000 < bits % 0x8000_0000_0000_0000 {
        return 0.0 / 0.0;
    }
    f64::from_bits(bits)
}

// The bits of a float in a stored result; every NaN is the same.
pub fn bits_of(x: f64) -> u64 {
    if x.is_nan() {
        return 0x7ff8_0000_0000_0000;
    }
    f64::to_bits(x)
}

// The bytes from a place on, none beyond the end.
pub fn from(bytes: &[u8], at: usize) -> &[u8] {
    bytes.get(at..).unwrap_or(&[])
}

// The number that the bytes begin with and the bytes behind it, 0 where they are too few.
pub fn next<T: Number>(bytes: &[u8]) -> (T, &[u8]) {
    T::split(bytes).unwrap_or((T::default(), &[]))
}

// The number at a place, 0 beyond the end.
pub fn number_at<T: Number>(bytes: &[u8], at: usize) -> T {
    let (number, _) = next(from(bytes, at));
    number
}

// The numbers from a place on, as many as the slice takes.
pub fn load<T: Number>(bytes: &[u8], at: usize, numbers: &mut [T]) {
    let mut rest = from(bytes, at);
    for n in numbers.iter_mut() {
        (*n, rest) = next(rest);
    }
}

// Whether the numbers from a place on are these.
fn begins<T: Number>(bytes: &[u8], at: usize, numbers: &[T]) -> bool {
    let mut rest = from(bytes, at);
    for n in numbers {
        let (stored, behind) = next(rest);
        if *n != stored {
            return false;
        }
        rest = behind;
    }
    true
}

// Whether a slice has the numbers from a place on, so many, and zeros behind them.
pub fn holds<T: Number>(bytes: &[u8], at: usize, count: usize, numbers: &[T]) -> bool {
    let (front, behind) = numbers.split_at(count.min(numbers.len()));
    begins(bytes, at, front) && is_clear(behind)
}

// Whether all of a slice is zero.
pub fn is_clear<T: Number>(numbers: &[T]) -> bool {
    numbers.iter().all(|n| *n == T::default())
}
