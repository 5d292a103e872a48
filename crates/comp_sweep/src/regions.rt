//! Regions of eight compacted pages each. The last region has the pages that are left.
ghost use Rattle.std.specs.Prelude.{◌≡◌};
ghost use Rattle.comp_sweep.specs.RegionSplits.{regions_of};

/// The number of compacted pages of a region. The last region may have fewer.
pub const REGION_PAGES: u64 = 8;

/// The number of regions of `pages` compacted pages.
pub fn region_count(pages: u64) -> u64
    ensures { result ≡ regions_of pages }
{
    pages.div_ceil(REGION_PAGES)
}
