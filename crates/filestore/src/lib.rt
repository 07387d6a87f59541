// The file store: a store over an opened block file.
#![tactic(auto)]

pub mod filestore;
