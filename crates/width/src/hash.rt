//! Row hashes: what rows are compared by before their bytes.

ghost use Rattle.std.specs.Prelude.{◌≡◌, ℕ, fold};
ghost use Rattle.width.specs.Fnv.{offset_basis, stepped, fnv1a};

/// A hash that is fed byte by byte.
pub trait RowHash {
    // where the hash starts
    ghost seed: { ℕ };

    // the hash after a hash and a byte
    ghost step: { ℕ → ℕ → ℕ };

    /// The hash of no bytes.
    fn begin() -> u64
        ensures { result ≡ seed };

    /// The hash with one byte more.
    fn feed(hash: u64, byte: u8) -> u64
        ensures { result ≡ step hash byte };
}

const OFFSET_BASIS: u64 = 14695981039346656037;

const PRIME: u64 = 1099511628211;

/// The 64-bit FNV-1a.
#[derive(Clone, Copy)]
pub struct Fnv;

impl RowHash for Fnv {
    ghost seed = { offset_basis };

    ghost step = { stepped };

    fn begin() -> u64 {
        OFFSET_BASIS
    }

    fn feed(hash: u64, byte: u8) -> u64 {
        (hash ^ u64::from(byte)).wrapping_mul(PRIME)
    }
}

/// Always 0: no two rows differ by it.
#[derive(Clone, Copy)]
pub struct Constant;

impl RowHash for Constant {
    ghost seed = { 0 };

    ghost step = { λ _ _. 0 };

    fn begin() -> u64 {
        0 // with no byte
    }

    fn feed(_hash: u64, _byte: u8) -> u64 {
        0 // with any byte
    }
}

/// The hash with these bytes more.
pub fn feed_all<R: RowHash>(hash: u64, bytes: &[u8]) -> u64
    ensures { result ≡ fold R.RowHash.step hash bytes.now }
{
    bytes.iter().fold(hash, |all, byte| R::feed(all, *byte))
}

/// The 64-bit FNV-1a of these bytes.
pub fn fnv1a(bytes: &[u8]) -> u64
    ensures { result ≡ fnv1a bytes.now }
{
    feed_all::<Fnv>(Fnv::begin(), bytes)
}
