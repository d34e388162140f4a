//! Tests of IR packages.
mod narrowing;
mod reading;
mod sample;
mod tokens;
