//! The tests of matrices of patterns as large as a source may make them: a column for each byte or two.
//!
//! It leaves what `covers` means to its contract, and the coverage of sources to `front_gallery`. Nothing uses it: it stands apart
//! so that `rw_cover_matrix` is proved once. Begin with `long.rt`.
#![tactic(auto)]

#[cfg(test)]
mod long;
