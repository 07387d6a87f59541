// Bad input and worked examples, as tables. Nothing here is part of the library.
#![tactic(auto)]

#[cfg(test)]
mod accuse;
#[cfg(test)]
mod attacks;
#[cfg(test)]
mod block;
#[cfg(test)]
mod extractions;
#[cfg(test)]
mod files;
#[cfg(test)]
mod pieces;
