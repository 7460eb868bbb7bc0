//! What holds of assembling and listing together, as contracts.

ghost use Rattle.pal_asm.specs.Laws.{OffsetsAreLengths, EachIsListed, OneListing, ListingIsShort, ListingAssembles};

/// The offset that some lines reach is 32 plus the length of their code, so a label's value is the
/// offset of what follows it.
pub fn offsets_are_lengths()
    ensures { OffsetsAreLengths }
{}

/// Every code has a listing.
pub fn each_is_listed()
    ensures { EachIsListed }
{}

/// Code has one listing.
pub fn one_listing()
    ensures { OneListing }
{}

/// A listing of code of at most 49,120 bytes has fewer than 2^32 bytes, so it may be given to
/// `assemble`.
pub fn listing_is_short()
    ensures { ListingIsShort }
{}

/// Code of at most 49,120 bytes whose instructions stand in their chosen spellings is what its
/// listing assembles to.
pub fn listing_assembles()
    ensures { ListingAssembles }
{}
