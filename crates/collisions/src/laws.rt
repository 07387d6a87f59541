// What holds of searches, for every hash. The function does nothing.
ghost use Rattle.collisions.specs.Finding.{SearchesChain};

use hash::digest::Hash;

// Searches through one tree and then through another are one search.
pub fn searches_chain<H: Hash>()
    ensures { SearchesChain H.Hash.meaning }
{}
