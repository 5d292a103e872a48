//! The version numbers in images and dumps.
ghost use Rattle.std.specs.Prelude.{◌≡◌, ◌≢◌, IfNone, IfSome};
ghost use Rattle.heap_layout.specs.Versions.{version_of, IsRead};
ghost use Rattle.heap_layout.specs.declared.edition.Edition.{Edition as Editions};

use crate::edition::Edition;

/// The version number in images and dumps of this edition.
pub fn version_of(edition: Edition) -> u32
    ensures { result ≡ version_of edition }
{
    match edition {
        Edition::One => 1,
        Edition::Two => 2,
        Edition::Three => 3,
        Edition::Four => 4,
    }
}

/// The edition that has this version number, if images and dumps of it are read: those of editions three and four only
/// if `large`. None if no such edition has it.
pub fn edition_of(version: u32, large: bool) -> Option<Edition>
    ensures found { IfSome result (λ edition. version_of edition ≡ version) }
    ensures read { IfSome result (IsRead large) }
    ensures none { IfNone result ((edition : Editions) → IsRead large edition → version_of edition ≢ version) }
{
    if version == version_of(Edition::One) {
        Some(Edition::One)
    } else if version == version_of(Edition::Two) {
        Some(Edition::Two)
    } else if large && version == version_of(Edition::Three) {
        Some(Edition::Three)
    } else if large && version == version_of(Edition::Four) {
        Some(Edition::Four)
    } else {
        None
    }
}
