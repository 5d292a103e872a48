//! The words of a new table, which are lent and never written.
ghost use Rattle.std.specs.Prelude.{◌≡◌, ◌≤◌, replicate};

/// So many zeros can be lent: more than the words of the largest table of edition one or two, which are 1,335,297, and
/// enough for 32,000 pages, each with a state word and 64 words. Rattle takes no larger static. A table with more words
/// copies zeros of its own.
pub const MAX_TABLE_WORDS: usize = 2_097_152;

static ZEROS: [u64; MAX_TABLE_WORDS] = [0; MAX_TABLE_WORDS];

/// `n` zeros, without room of their own. `n` must be at most 2,097,152, which is `MAX_TABLE_WORDS`.
pub fn zeros(n: usize) -> &'static [u64]
    requires { n ≤ 2097152 }
    ensures { result.now ≡ replicate n 0 }
{
    first(&ZEROS, n)
}

// The first n of N zeros. The length has a name here: in a proof a list of a million zeros is never written out.
fn first<const N: usize>(all: &'static [u64; N], n: usize) -> &'static [u64]
    requires few { n ≤ N }
    requires zeros { all.now ≡ replicate N 0 }
    ensures { result.now ≡ replicate n 0 }
{
    &all[..n]
}
