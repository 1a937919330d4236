//! What neither a clause nor a transcript of the crate `worked_plays` shows, as tests alone. Each expected number is reckoned by hand from
//! the rules, as the comments say.
//!
//! Through the loop over a plain discipline: how far a capture is read, and filters over two classes. Sendings of the plain disciplines, by
//! literal offers and moments. The random words of a seed. And numbers of a chain: the line of a status, and the parts of its files.
#![tactic(auto)]

#[cfg(test)]
mod filters;
#[cfg(test)]
mod links;
#[cfg(test)]
mod over_strict;
#[cfg(test)]
mod plain;
#[cfg(test)]
mod reading;
#[cfg(test)]
mod words;
