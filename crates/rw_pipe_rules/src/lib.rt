//! What the whole compiler is to answer: the verdict on a source by the rules E01 to E25, and when a VHDL text is right for a source.
//!
//! It leaves finding either to the calls above it. It has definitions alone, and no code that runs.
//! Begin with `specs/Verdict.antt`, then `specs/Right.antt`.
#![tactic(auto)]
