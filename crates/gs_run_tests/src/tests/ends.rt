//! Links by themselves and between two threads, and the ends of a peer's links.
mod answers;
mod crossing;
mod ends;
mod given;
mod links;
