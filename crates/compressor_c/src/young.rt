//! Exports for young collections of a heap at rest, by tables that know a watermark.
ghost use Rattle.std.specs.Prelude.{◌≡◌, None};
ghost use Rattle.handle_base.specs.HandleKinds.{old_in, Asks, Fills};
ghost use Rattle.rest_handle.specs.Raising.{Raises};
ghost use Rattle.rest_handle.specs.Young.{ChangesOld, ChecksOld, CollectsAging, CollectsAll, CollectsYoung, CollectsYoungBy, ReservesOld, SaysWatermark};

use handle_base::{Answer, Handle};
use std::alloc::Global;

/// Makes tables with room for collections of so many words, whose watermark is 0.
#[unsafe(no_mangle)]
pub extern "C" fn compressor_old_reserve(alloc: Global, words: u64, old: &mut Handle) -> Answer
    ensures { Fills 0 (ReservesOld words) (Unit {0}) old.old.kept old.new.kept result }
{
    rest_handle::reserve_old(alloc, words, old)
}

/// The watermark of tables.
#[unsafe(no_mangle)]
pub extern "C" fn compressor_watermark(alloc: Global, old: &mut Handle) -> Answer
    ensures same { old.new.kept ≡ old.old.kept }
    ensures says { Asks 0 old_in SaysWatermark (Unit {0}) old.old.kept result }
{
    rest_handle::watermark(alloc, old)
}

/// Collects all of the heap of these words and roots, of this edition, 1 to 4, within the words.
#[unsafe(no_mangle)]
pub extern "C" fn compressor_c_collect_all(
    alloc: Global,
    old: &mut Handle,
    edition: u32,
    words: &mut [u64],
    roots: &mut [u64],
) -> Answer
    ensures { ChangesOld (CollectsAll edition words.old words.new roots.old roots.new) ((words.new ≡ words.old) × (roots.new ≡ roots.old)) old.old.kept old.new.kept result }
{
    rest_handle::collect_all(alloc, old, edition, words, roots)
}

/// Collects what is young of it, by cards.
#[unsafe(no_mangle)]
pub extern "C" fn compressor_c_collect_young(
    alloc: Global,
    old: &mut Handle,
    edition: u32,
    words: &mut [u64],
    cards: &[u8],
    roots: &mut [u64],
) -> Answer
    ensures { ChangesOld (CollectsYoung edition words.old words.new cards.now roots.old roots.new) ((words.new ≡ words.old) × (roots.new ≡ roots.old)) old.old.kept old.new.kept result }
{
    rest_handle::collect_young(alloc, old, edition, words, cards, roots)
}

/// Collects what is young of it, by a list of the words of old objects into which was stored, in place of cards.
#[unsafe(no_mangle)]
pub extern "C" fn compressor_c_collect_young_by(
    alloc: Global,
    old: &mut Handle,
    edition: u32,
    words: &mut [u64],
    fields: &mut [u64],
    roots: &mut [u64],
) -> Answer
    ensures { ChangesOld (CollectsYoungBy edition words.old words.new fields.old fields.new roots.old roots.new) ((words.new ≡ words.old) × (fields.new ≡ fields.old) × (roots.new ≡ roots.old)) old.old.kept old.new.kept result }
{
    rest_handle::collect_young_by(alloc, old, edition, words, fields, roots)
}

/// Collects by cards, but an object becomes old when it has survived two collections; the cards are made anew.
#[unsafe(no_mangle)]
pub extern "C" fn compressor_c_collect_aging(
    alloc: Global,
    old: &mut Handle,
    edition: u32,
    words: &mut [u64],
    cards: &mut [u8],
    roots: &mut [u64],
) -> Answer
    ensures { ChangesOld (CollectsAging edition words.old words.new cards.old cards.new roots.old roots.new) ((words.new ≡ words.old) × (cards.new ≡ cards.old) × (roots.new ≡ roots.old)) old.old.kept old.new.kept result }
{
    rest_handle::collect_aging(alloc, old, edition, words, cards, roots)
}

/// Raises the watermark to word `end`: all that lies below is old then, and nothing is collected.
#[unsafe(no_mangle)]
pub extern "C" fn compressor_c_old_raise(
    alloc: Global,
    old: &mut Handle,
    edition: u32,
    words: &[u64],
    end: u64,
) -> Answer
    ensures { ChangesOld (Raises edition words.now end) (Unit {0}) old.old.kept old.new.kept result }
{
    rest_handle::raise_old(alloc, old, edition, words, end)
}

/// Whether the words below the watermark are as a young collection by these cards believes.
#[unsafe(no_mangle)]
pub extern "C" fn compressor_c_old_check(
    alloc: Global,
    old: &mut Handle,
    edition: u32,
    words: &[u64],
    cards: &[u8],
) -> Answer
    ensures same { old.new.kept ≡ old.old.kept }
    ensures checks { Asks 0 old_in (ChecksOld edition words.now cards.now) (Unit {0}) old.old.kept result }
{
    rest_handle::check_old(alloc, old, edition, words, cards)
}

/// Drops tables with a watermark. Their handle is empty then.
#[unsafe(no_mangle)]
pub extern "C" fn compressor_old_return(alloc: Global, old: &mut Handle)
    ensures { old.new.kept ≡ None }
{
    flip_handle::drop_kept(alloc, old);
}
