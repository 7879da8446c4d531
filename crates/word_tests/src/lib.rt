//! Tests of the decoders, of listings, of settings and of legality, on words whose meaning is known from elsewhere,
//! and of the readers of elements. They use public calls alone, so they stand in a crate of their
//! own: a change of a test does not prove the libraries again.
#![tactic(auto)]

#[cfg(test)]
mod elements;
#[cfg(test)]
mod legality;
#[cfg(test)]
mod listings;
#[cfg(test)]
mod scalar_words;
#[cfg(test)]
mod settings;
#[cfg(test)]
mod vector_words;
