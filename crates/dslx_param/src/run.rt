//! Instances of functions are lowered: the tasks of bodies are done one after another, and instances that calls need come first.
mod atom;
mod form;
mod machine;
mod make;
mod node;
mod step;
mod whole;

pub use whole::run;
