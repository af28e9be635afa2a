//! Makes each call of the caches, scores, meshes, codec and reader that can run out of memory. It also has routers do what
//! they do at some moments. For each of these it writes a line, which begins with `right` where all that is seen is allowed.
//! It is run many times, and each time another growth of its memory is refused.
#![tactic(auto)]

mod frames;
mod meshes;
mod messages;
mod moments;
mod routers;
mod seen;
mod sightings;
mod standings;

use crate::frames::{try_codec, try_reader};
use crate::meshes::try_meshes;
use crate::messages::try_messages;
use crate::moments::{A_BACKOFF, GRAFTS, Moment, OFFERS};
use crate::routers::try_moment;
use crate::sightings::try_sightings;
use crate::standings::try_standings;
use std::alloc::Global;
use std::io::Write;

/// Tries what a router is built on.
fn tell_parts<W: Write>(alloc: Global, output: &mut W) {
    try_codec(alloc).write_line(output, "a body that is read and written");
    try_reader(alloc).write_line(output, "a stream that is read");
    try_sightings(alloc).write_line(output, "a cache of what was seen");
    try_messages(alloc).write_line(output, "a cache of messages");
    try_standings(alloc).write_line(output, "scores");
    try_meshes(alloc).write_line(output, "meshes");
}

/// Tries routers.
fn tell_routers<W: Write>(alloc: Global, output: &mut W) {
    let moments: [&Moment; 3] = [&A_BACKOFF, &OFFERS, &GRAFTS];
    for moment in moments {
        try_moment(alloc, moment).write_line(output, moment.name);
    }
}

fn main(rt: HostRuntime) {
    let mut output = rt.stdout();
    tell_parts(rt.alloc(), &mut output);
    tell_routers(rt.alloc(), &mut output);
}
