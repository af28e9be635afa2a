//! Where peers stand on the circle.
ghost use Rattle.std.specs.Prelude.{◌≡◌, slice_get, unwrap_or};
ghost use Rattle.gs_picture.specs.Places.{are_named, degrees, label_radius, leg, on_circle, radius_of, sine};

use gs_base::PeerNo;

/// How far discs on the outer circle are from the centre.
const DISC_RADIUS: u16 = 220;

/// How far names are from the centre of the circle.
pub(crate) const LABEL_RADIUS: u16 = 238;

/// Names stand level where there are up to this many peers, and along the radius where there are more.
pub(crate) const MOST_LEVEL: usize = 16;

/// Names stand next to discs where there are up to this many peers. Discs are small where there are more.
pub(crate) const MOST_NAMED: usize = 64;

/// Whether names stand next to discs, of this many peers.
pub(crate) fn are_named(count: usize) -> bool
    ensures { result ≡ are_named count }
{
    count <= MOST_NAMED
}

/// A place in the picture: its distance from the left and from above.
#[derive(Clone, Copy, Debug, PartialEq, Eq)]
pub(crate) struct Point {
    pub x: u128,
    pub y: u128,
}

/// The sines of 0 to 90 degrees, in ten-thousandths.
static SINES: [u16; 91] = [
    0, 175, 349, 523, 698, 872, 1045, 1219, 1392, 1564, 1736, 1908, 2079, 2250, 2419, 2588, 2756,
    2924, 3090, 3256, 3420, 3584, 3746, 3907, 4067, 4226, 4384, 4540, 4695, 4848, 5000, 5150, 5299,
    5446, 5592, 5736, 5878, 6018, 6157, 6293, 6428, 6561, 6691, 6820, 6947, 7071, 7193, 7314, 7431,
    7547, 7660, 7771, 7880, 7986, 8090, 8192, 8290, 8387, 8480, 8572, 8660, 8746, 8829, 8910, 8988,
    9063, 9135, 9205, 9272, 9336, 9397, 9455, 9511, 9563, 9613, 9659, 9703, 9744, 9781, 9816, 9848,
    9877, 9903, 9925, 9945, 9962, 9976, 9986, 9994, 9998, 10_000,
];

/// The sine of this many degrees in ten-thousandths, and 0 above 90.
#[tactic(auto, unfolding(crate::specs::Places::sines))]
fn sine(degrees: u64) -> u16
    ensures { result ≡ sine degrees }
{
    sine_in(&SINES, degrees)
}

/// The entry of a table at this many degrees, and 0 after its end.
fn sine_in(table: &[u16], degrees: u64) -> u16
    ensures { result ≡ unwrap_or (slice_get table.now degrees) 0 }
{
    match table.get(degrees as usize) {
        Some(sine) => *sine,
        None => 0,
    }
}

/// The radius times the sine of this many degrees, rounded down.
fn leg(radius: u16, degrees: u64) -> u64
    ensures { result ≡ leg radius degrees }
{
    u64::from(radius) * u64::from(sine(degrees)) / 10_000
}

/// The place at this many degrees from the top, clockwise.
pub(crate) fn on_circle(radius: u16, degrees: u64) -> Point
    ensures { result ≡ on_circle radius degrees }
{
    if degrees <= 90 {
        return Point {
            x: 460 + u128::from(leg(radius, degrees)),
            y: 310u128.saturating_sub(u128::from(leg(radius, 90 - degrees))),
        };
    }
    if degrees <= 180 {
        return Point {
            x: 460 + u128::from(leg(radius, 180 - degrees)),
            y: 310 + u128::from(leg(radius, degrees - 90)),
        };
    }
    if degrees <= 270 {
        return Point {
            x: 460u128.saturating_sub(u128::from(leg(radius, degrees - 180))),
            y: 310 + u128::from(leg(radius, 270 - degrees)),
        };
    }
    Point {
        x: 460u128.saturating_sub(u128::from(leg(radius, 360u64.saturating_sub(degrees)))),
        y: 310u128.saturating_sub(u128::from(leg(radius, degrees - 270))),
    }
}

/// How far the disc of a peer is from the centre, of `count` peers. There is one more circle for each 360 peers. Each is 10
/// units within the one before it, and peers stand on them in turn.
pub(crate) fn radius_of(count: usize, peer: PeerNo) -> u16
    ensures { result ≡ radius_of count peer }
{
    let circle = u64::from(peer.0) % (count as u64 / 360 + 1);
    u64::from(DISC_RADIUS).saturating_sub(10 * circle) as u16
}

/// At how many degrees a peer stands, of `count` peers.
pub(crate) fn degrees(count: usize, peer: PeerNo) -> u64
    ensures { result ≡ degrees count peer }
{
    u64::from(peer.0) * 360 / (count as u64).max(1) % 360
}
