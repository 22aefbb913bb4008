// A shot moved from one epoch to another: whole numbers in, doubles that are whole micrometres out.
#![tactic(auto)]

ghost use Rattle.std.specs.Prelude.{◌≡◌, ◌≤◌, ◌<◌, length, nat_abs};
ghost use Rattle.format.specs.Figures.{shot_length, coordinate_limit, difference_limit, motion_limit};
ghost use Rattle.format.specs.Epochs as Epochs;
ghost use Rattle.epoch.specs.Doubles.{double_of};
ghost use Rattle.epoch.specs.Answers.{number_of, triple_of, point_as, motion_as, shifted_as};
ghost use Rattle.format.specs.Epochs.{Sizes, Inside};

use record::Refusal;

// Three whole numbers: tenths of a millimetre, or of a millimetre a year. The C interface has each of these three types.
#[repr(C)]
#[derive(Clone, Copy, Default)]
pub struct Triple {
    pub x: i64,
    pub y: i64,
    pub z: i64,
}

// A position in micrometres. A motion has the same shape and another meaning.
#[repr(C)]
#[derive(Clone, Copy, Default)]
pub struct Point {
    pub x: f64,
    pub y: f64,
    pub z: f64,
}

// A motion in micrometres a year.
#[repr(C)]
#[derive(Clone, Copy, Default)]
pub struct Motion {
    pub x: f64,
    pub y: f64,
    pub z: f64,
}

// A moved shot with its own epoch, in hundredths of a year, and its own coordinates.
#[derive(Clone, Copy)]
pub struct Shifted {
    pub epoch: usize,
    pub position: Triple,
    pub point: Point,
    pub motion: Motion,
}

// The number that the digits write behind `v`.
#[tactic(auto, using(crate::proofs::Loops::digits))]
fn number_from(v: usize, digits: &[u8]) -> Option<usize>
    requires { (v < 10000) × (length digits.now ≤ 4) }
    ensures { number_of result ≡ Epochs.number_from v digits.now }
{
    let mut n = v;
    for &b in digits {
        if !b.is_ascii_digit() {
            return None;
        }
        n = n * 10 + usize::from(b - b'0');
    }
    Some(n)
}

// What stands behind `urn:ep:`: four digits, or those, a point and two digits.
#[tactic(auto, using(crate::proofs::Texts::texts), unfolding(format::specs::Epochs::epoch_in))]
fn epoch_in(text: &[u8]) -> Option<usize>
    ensures { number_of result ≡ Epochs.epoch_in text.now }
{
    match text.len() {
        4 => {
            let years = number_from(0, text)?;
            Some(years * 100)
        }
        7 if text[4] == b'.' => {
            let years = number_from(0, &text[..4])?;
            number_from(years, &text[5..])
        }
        _ => None,
    }
}

// The epoch that a URI names, in hundredths of a year.
#[tactic(auto, using(crate::proofs::Texts::equal_same), unfolding(format::specs::Epochs::epoch_of))]
pub fn epoch_of(uri: &[u8]) -> Option<usize>
    ensures { number_of result ≡ Epochs.epoch_of uri.now }
{
    epoch_in(uri.strip_prefix(b"urn:ep:")?)
}

// A signed big-endian number of eight bytes.
fn read_signed(bytes: &[u8]) -> i64
    requires { length bytes.now ≡ 8 }
    ensures { result ≡ Epochs.signed (Epochs.big_endian bytes.now) }
{
    i64::from_be_bytes(bytes.try_into().unwrap())
}

// The coordinates in a shot's data.
#[tactic(auto, unfolding(format::specs::Epochs::position_of, format::specs::Epochs::coordinate_at))]
fn position_of(bytes: &[u8]) -> Triple
    requires { length bytes.now ≡ shot_length }
    ensures { triple_of result ≡ Epochs.position_of bytes.now }
{
    Triple {
        x: read_signed(&bytes[..8]),
        y: read_signed(&bytes[8..16]),
        z: read_signed(&bytes[16..24]),
    }
}

fn is_within(limit: u64, t: Triple) -> bool
    ensures { result ≡ Epochs.is_within limit (triple_of t) }
{
    t.x.unsigned_abs() <= limit && t.y.unsigned_abs() <= limit && t.z.unsigned_abs() <= limit
}

// Whether each figure is within its bound.
#[tactic(auto, unfolding(format::specs::Epochs::in_bounds))]
fn in_bounds(position: Triple, difference: i64, motion: Triple) -> bool
    ensures { result ≡ Epochs.in_bounds (triple_of position) difference (triple_of motion) }
{
    is_within(format::COORDINATE_LIMIT, position)
        && difference.unsigned_abs() <= format::DIFFERENCE_LIMIT
        && is_within(format::MOTION_LIMIT, motion)
}

// 100 times the position, and the motion times the difference.
#[tactic(auto, using(crate::proofs::Exact::steps))]
fn moved(position: i64, motion: i64, difference: i64) -> f64
    requires { (nat_abs position ≤ coordinate_limit) × ((nat_abs motion ≤ motion_limit) × (nat_abs difference ≤ difference_limit)) }
    ensures { result ≡ double_of (Epochs.moved_of position motion difference) }
{
    100.0 * (position as f64) + (motion as f64) * (difference as f64)
}

#[tactic(auto, using(crate::proofs::Exact::steps))]
fn yearly(motion: i64) -> f64
    requires { nat_abs motion ≤ motion_limit }
    ensures { result ≡ double_of (Epochs.yearly_of motion) }
{
    100.0 * (motion as f64)
}

fn point_at(position: Triple, motion: Triple, difference: i64) -> Point
    requires { Inside (triple_of position) difference (triple_of motion) }
    ensures { result ≡ point_as (Epochs.point_of (triple_of position) (triple_of motion) difference) }
{
    Point {
        x: moved(position.x, motion.x, difference),
        y: moved(position.y, motion.y, difference),
        z: moved(position.z, motion.z, difference),
    }
}

fn motion_of(motion: Triple) -> Motion
    requires { Sizes motion_limit (triple_of motion) }
    ensures { result ≡ motion_as (Epochs.motion_of (triple_of motion)) }
{
    Motion {
        x: yearly(motion.x),
        y: yearly(motion.y),
        z: yearly(motion.z),
    }
}

// A shot of an epoch, to another one.
#[tactic(auto, using(crate::proofs::Bounds::shifting), unfolding(format::specs::Epochs::shift_from, record::specs::Items::refusal_back))]
fn shift_from(epoch: usize, bytes: &[u8], asked: i64, motion: Triple) -> Result<Shifted, Refusal>
    ensures { result ≡ shifted_as (Epochs.shift_from epoch bytes.now asked (triple_of motion)) }
{
    if bytes.len() != format::SHOT_LENGTH {
        return Err(Refusal::NotShot);
    }
    let position = position_of(bytes);
    // A difference that has no room is over its bound, and so is what it saturates at.
    let difference = asked.saturating_sub_unsigned(epoch as u64);
    if !in_bounds(position, difference, motion) {
        return Err(Refusal::OverBound);
    }
    Ok(Shifted {
        epoch,
        position,
        point: point_at(position, motion, difference),
        motion: motion_of(motion),
    })
}

// Moves a shot, given by its URI and data, to the asked epoch, in hundredths of a year, by a yearly motion.
#[tactic(auto, unfolding(format::specs::Epochs::shift, format::specs::Epochs::shift_named, record::specs::Items::refusal_back))]
pub fn shift(uri: &[u8], bytes: &[u8], asked: i64, motion: Triple) -> Result<Shifted, Refusal>
    ensures { result ≡ shifted_as (Epochs.shift uri.now bytes.now asked (triple_of motion)) }
{
    let epoch = epoch_of(uri).ok_or(Refusal::NotEpoch)?;
    shift_from(epoch, bytes, asked, motion)
}
