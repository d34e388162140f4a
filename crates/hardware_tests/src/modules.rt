//! Tests of Verilog modules.
mod printed;
mod reads;
mod words;
