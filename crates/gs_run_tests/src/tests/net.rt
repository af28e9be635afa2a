//! Links of dials, and runs over them.
mod dials;
mod runs;
