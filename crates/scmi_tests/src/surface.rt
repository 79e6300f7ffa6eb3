//! Every public name of the platform's ten crates, as a caller writes it.

mod base;
mod clock;
mod codec;
mod ends;
mod link;
mod plan;
mod platform_core;
mod power;
mod run;
mod words;
