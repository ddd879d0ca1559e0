//! The premise of these laws can be met: an example.

ghost use Rattle.beam_laws.specs.Listings.{e};
ghost use Rattle.beam_model.specs.Heads.{CanLoad};

/// A listing that catches an error in one function, and in another raises an exit again that it caught, can be loaded: its rows have
/// shapes, some of them with a catch tag in a y register.
pub fn a_listing_with_catch_tags_can_be_loaded()
    ensures { CanLoad e }
{}
