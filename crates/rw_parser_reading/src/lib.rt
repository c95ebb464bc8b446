//! Reading a source from left to right with one token of lookahead, as functions on lists: what each reader of the parser
//! computes, and how many frames (what ends with no closing token) stand inside one another in what it reads. It has
//! definitions and lemmas, and no code that runs.
//!
//! It leaves what tokens spell to `rw_parser_grammar`, and that reading gives exactly this to `rw_parser_laws`; so a
//! reader of contracts need not believe these definitions. The crates of readers stand on it, from `rw_parser_patterns`
//! to `rw_parser_clauses`, and `rw_parser` above them.
//! Begin with `specs/Read.antt`, tokens one by one and lists of parts; then `specs/ReadTypes.antt` and
//! `specs/Frames.antt`.
#![tactic(auto)]
