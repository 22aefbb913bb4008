// What C and Rust call: every public call, with numbers, byte slices and structs of numbers. include/logbook.h documents it.
#![tactic(auto)]

ghost use Rattle.std.specs.Prelude.{◌≡◌, ◌+◌, ◌≤◌, length};
ghost use Rattle.format.specs.Reading as Format;
ghost use Rattle.format.specs.Calls as Calls;
ghost use Rattle.format.specs.Epochs as Epochs;
ghost use Rattle.format.specs.Moves.{fresh_slow};
ghost use Rattle.register.specs.Tables.{row_of};
ghost use Rattle.fit.specs.Resolving.{resolved_of};
ghost use Rattle.appending.specs.Starts.{started_of};
ghost use Rattle.appending.specs.Appendings.{appended_of};
ghost use Rattle.erasing.specs.Erases.{erased_of};
ghost use Rattle.erasing.specs.Wipes.{wiped_of};
ghost use Rattle.reading.specs.Readings.{reading_of};
ghost use Rattle.slow.specs.Moving.{slow_of};
ghost use Rattle.listing.specs.Filling.{fill_of};
ghost use Rattle.epoch.specs.Answers.{triple_of};
ghost use Rattle.logbook_c.specs.Answers.{started_as, appended_as, erased_as, wiped_as, Starts, Appends, Keeps};
ghost use Rattle.logbook_c.specs.Shifts.{shifted_from, shifted_as};
ghost use Rattle.logbook_c.specs.Items.{kind_number, bare_as, deleted_as, live_as, assignment_as, item_as};
ghost use Rattle.logbook_c.specs.Items.{BoundedEntry, Bounded, Steps, uri_as, listed_as, Lists};
ghost use Rattle.logbook_c.specs.Moves.{slow_from, SlowAs, outcome_as, BoundedOutcome, MovesOn};

use appending::Appended;
use epoch::{Motion, Point, Shifted, Triple};
use fit::Resolved;
use listing::Listed;
use reading::{Entry, Item, Reading};
use record::{Extent, Refusal, Told};
use register::{Place, Row};
use slow::{Held, Outcome, Slow};

// What C gets has no enum, so a refusal, a kind and a flag are numbers in it, as its header has them.
#[repr(C)]
#[derive(Clone, Copy, Default)]
pub struct LogbookStarted {
    pub refusal: usize,
    pub place: usize,
    pub used: usize,
}

#[repr(C)]
#[derive(Clone, Copy, Default)]
pub struct LogbookAppended {
    pub refusal: usize,
    pub place: usize,
    pub used: usize,
}

#[repr(C)]
#[derive(Clone, Copy, Default)]
pub struct LogbookErased {
    pub refusal: usize,
    pub place: usize,
}

#[repr(C)]
#[derive(Clone, Copy, Default)]
pub struct LogbookWiped {
    pub refusal: usize,
    pub place: usize,
    pub stores: usize,
}

// The kinds of an item, by C's numbers.
#[derive(Clone, Copy)]
pub enum Kind {
    Padding,
    Deleted,
    Entry,
    Header,
    Assignment,
    End,
    Refused,
    SizeHeld,
    TypeHeld,
}

#[repr(C)]
#[derive(Clone, Copy, Default)]
pub struct LogbookItem {
    pub kind: usize,
    pub refusal: usize,
    pub place: usize,
    pub number: usize,
    pub type_place: usize,
    pub data_place: usize,
    pub data_length: usize,
    pub row: Row,
    pub declared_place: usize,
    pub declared_number: usize,
    pub assigned: u64,
    pub assigned_place: usize,
}

#[repr(C)]
#[derive(Clone, Copy)]
pub struct LogbookStep {
    pub item: LogbookItem,
    pub reading: Reading,
}

#[repr(C)]
#[derive(Clone, Copy)]
pub struct LogbookSlow {
    pub reading: Reading,
    pub type_place: usize,
    pub end: usize,
    pub number: u64,
    pub data_place: usize,
}

#[repr(C)]
#[derive(Clone, Copy)]
pub struct LogbookMove {
    pub item: LogbookItem,
    pub slow: LogbookSlow,
}

#[repr(C)]
#[derive(Clone, Copy, Default)]
pub struct LogbookUri {
    pub refusal: usize,
    pub implied: usize,
    pub place: usize,
    pub length: usize,
}

#[repr(C)]
#[derive(Clone, Copy)]
pub struct LogbookListed {
    pub length: usize,
    pub over: usize,
    pub reading: Reading,
}

#[repr(C)]
#[derive(Clone, Copy, Default)]
pub struct LogbookShifted {
    pub refusal: usize,
    pub place: usize,
    pub epoch: usize,
    pub position: Triple,
    pub point: Point,
    pub motion: Motion,
}

// Each of these structs has its own fields, as C's header names them, so each is built by itself.
impl From<Result<usize, Refusal>> for LogbookStarted {
    ghost from_gives = { λ r x. x ≡ started_as (started_of r) };

    fn from(r: Result<usize, Refusal>) -> LogbookStarted {
        match r {
            Ok(used) => LogbookStarted {
                used,
                ..LogbookStarted::default()
            },
            Err(x) => {
                let t = Told::from(x);
                LogbookStarted {
                    refusal: t.number,
                    place: t.place.0,
                    ..LogbookStarted::default()
                }
            }
        }
    }
}

#[unsafe(no_mangle)]
pub extern "C" fn logbook_start(buf: &mut [u8], uuid: &[u8], free_part: &[u8]) -> LogbookStarted
    ensures { Starts uuid.now free_part.now buf.old buf.new result }
{
    LogbookStarted::from(appending::start(buf, uuid, free_part))
}

// A refused append has the used length that was handed in.
fn appended(used: usize, r: Result<Appended, Refusal>) -> LogbookAppended
    ensures { result ≡ appended_as used (appended_of r) }
{
    match r {
        Ok(x) => LogbookAppended {
            place: x.place.0,
            used: x.used,
            ..LogbookAppended::default()
        },
        Err(x) => {
            let t = Told::from(x);
            LogbookAppended {
                refusal: t.number,
                place: t.place.0,
                used,
            }
        }
    }
}

#[unsafe(no_mangle)]
pub extern "C" fn logbook_append(
    buf: &mut [u8],
    used: usize,
    uri: &[u8],
    bytes: &[u8],
) -> LogbookAppended
    ensures { Appends (Calls.append uri.now bytes.now) buf.old used buf.new result }
{
    appended(used, appending::append(buf, used, uri, bytes))
}

#[unsafe(no_mangle)]
pub extern "C" fn logbook_assign(
    buf: &mut [u8],
    used: usize,
    number: u64,
    uri: &[u8],
) -> LogbookAppended
    ensures { Appends (Calls.assign number uri.now) buf.old used buf.new result }
{
    appended(used, appending::assign(buf, used, number, uri))
}

impl From<Result<Place, Refusal>> for LogbookErased {
    ghost from_gives = { λ r x. x ≡ erased_as (erased_of r) };

    fn from(r: Result<Place, Refusal>) -> LogbookErased {
        match r {
            Ok(place) => LogbookErased {
                place: place.0,
                ..LogbookErased::default()
            },
            Err(x) => {
                let t = Told::from(x);
                LogbookErased {
                    refusal: t.number,
                    place: t.place.0,
                }
            }
        }
    }
}

#[unsafe(no_mangle)]
pub extern "C" fn logbook_erase(buf: &mut [u8], used: usize, place: usize) -> LogbookErased
    ensures { Keeps erased_as (Calls.erase place) buf.old used buf.new result }
{
    LogbookErased::from(erasing::erase(buf, used, Place(place)))
}

impl From<Result<usize, Refusal>> for LogbookWiped {
    ghost from_gives = { λ r x. x ≡ wiped_as (wiped_of r) };

    fn from(r: Result<usize, Refusal>) -> LogbookWiped {
        match r {
            Ok(stores) => LogbookWiped {
                stores,
                ..LogbookWiped::default()
            },
            Err(x) => {
                let t = Told::from(x);
                LogbookWiped {
                    refusal: t.number,
                    place: t.place.0,
                    ..LogbookWiped::default()
                }
            }
        }
    }
}

#[unsafe(no_mangle)]
pub extern "C" fn logbook_wipe(
    buf: &mut [u8],
    used: usize,
    place: usize,
    limit: usize,
) -> LogbookWiped
    ensures { Keeps wiped_as (Calls.wipe place limit) buf.old used buf.new result }
{
    LogbookWiped::from(erasing::wipe(buf, used, Place(place), limit))
}

#[unsafe(no_mangle)]
pub extern "C" fn logbook_fresh() -> Reading
    ensures { reading_of result ≡ Format.fresh }
{
    Reading::fresh()
}

// An item that is no record.
fn bare_item(kind: Kind, place: usize) -> LogbookItem
    ensures { result ≡ bare_as (kind_number kind) 0 place }
{
    LogbookItem {
        kind: kind as usize,
        place,
        ..LogbookItem::default()
    }
}

// `buf` stands here for the contract: what is shown lies in it.
fn deleted_item(buf: &[u8], place: usize, extent: Extent) -> LogbookItem
    requires { place + extent.size + extent.body ≤ length buf.now }
    ensures { result ≡ deleted_as place extent.size extent.body }
{
    LogbookItem {
        type_place: place + extent.size,
        data_place: place + extent.size,
        data_length: extent.body,
        ..bare_item(Kind::Deleted, place)
    }
}

fn live_item(buf: &[u8], kind: Kind, e: Entry) -> LogbookItem
    requires { BoundedEntry (length buf.now) e }
    ensures { result ≡ live_as (kind_number kind) e }
{
    let live = e.live;
    let place = e.place.0;
    LogbookItem {
        number: e.number.0,
        type_place: place + live.size,
        data_place: place + live.size + live.kind,
        data_length: live.body - live.kind,
        row: live.row,
        declared_place: live.declared.place.0,
        declared_number: live.declared.number.0,
        ..bare_item(kind, place)
    }
}

fn assignment_item(buf: &[u8], e: Entry, number: u64, gap: usize) -> LogbookItem
    requires { BoundedEntry (length buf.now) e × (e.live.kind + gap ≤ e.live.body) }
    ensures { result ≡ assignment_as e number gap }
{
    let live = live_item(buf, Kind::Assignment, e);
    LogbookItem {
        assigned: number,
        assigned_place: live.data_place + gap,
        ..live
    }
}

// An item that lies in a buffer, or its refusal.
fn item_as(buf: &[u8], item: Result<Item, Refusal>) -> LogbookItem
    requires { Bounded (length buf.now) item }
    ensures { result ≡ item_as item }
{
    match item {
        Ok(Item::Padding(place)) => bare_item(Kind::Padding, place.0),
        Ok(Item::Deleted { place, extent }) => deleted_item(buf, place.0, extent),
        Ok(Item::Entry(e)) => live_item(buf, Kind::Entry, e),
        Ok(Item::Header(e)) => live_item(buf, Kind::Header, e),
        Ok(Item::Assignment { entry, number, gap }) => assignment_item(buf, entry, number, gap),
        Ok(Item::End(place)) => bare_item(Kind::End, place.0),
        Err(x) => {
            let t = Told::from(x);
            LogbookItem {
                refusal: t.number,
                ..bare_item(Kind::Refused, t.place.0)
            }
        }
    }
}

#[unsafe(no_mangle)]
pub extern "C" fn logbook_step(buf: &[u8], used: usize, mut reading: Reading) -> LogbookStep
    ensures { Steps buf.now used reading result }
{
    let item = reading.advance(buf, used);
    LogbookStep {
        item: item_as(buf, item),
        reading,
    }
}

impl From<LogbookSlow> for Slow {
    ghost from_gives = { λ x s. s ≡ slow_from x };

    fn from(x: LogbookSlow) -> Slow {
        Slow {
            reading: x.reading,
            held: Held::of(
                Place(x.type_place),
                Place(x.end),
                x.number,
                Place(x.data_place),
            ),
        }
    }
}

impl From<Slow> for LogbookSlow {
    ghost from_gives = { SlowAs };

    fn from(s: Slow) -> LogbookSlow {
        let (type_place, end, number, data_place) = Held::numbers(s.held);
        LogbookSlow {
            reading: s.reading,
            type_place: type_place.0,
            end: end.0,
            number,
            data_place: data_place.0,
        }
    }
}

#[unsafe(no_mangle)]
pub extern "C" fn logbook_slow_fresh() -> LogbookSlow
    ensures { slow_of (slow_from result) ≡ fresh_slow }
{
    LogbookSlow::from(Slow::fresh())
}

// What a move at a position shows: an item that lies in a buffer, that a size or a type is held, or a refusal.
fn outcome_as(buf: &[u8], position: usize, outcome: Result<Outcome, Refusal>) -> LogbookItem
    requires { BoundedOutcome (length buf.now) outcome }
    ensures { result ≡ outcome_as position outcome }
{
    match outcome {
        Ok(Outcome::Done(item)) => item_as(buf, Ok(item)),
        Ok(Outcome::Holds(Held::Sized { .. })) => bare_item(Kind::SizeHeld, position),
        Ok(Outcome::Holds(Held::Typed { .. })) => bare_item(Kind::TypeHeld, position),
        Err(x) => item_as(buf, Err(x)),
    }
}

#[unsafe(no_mangle)]
pub extern "C" fn logbook_move(buf: &[u8], used: usize, slow: LogbookSlow) -> LogbookMove
    ensures { MovesOn buf.now used slow result }
{
    let position = slow.reading.position.0;
    let mut slow = Slow::from(slow);
    let outcome = slow.advance(buf, used);
    LogbookMove {
        item: outcome_as(buf, position, outcome),
        slow: LogbookSlow::from(slow),
    }
}

impl From<Result<Resolved, Refusal>> for LogbookUri {
    ghost from_gives = { λ r x. x ≡ uri_as (resolved_of r) };

    fn from(r: Result<Resolved, Refusal>) -> LogbookUri {
        match r {
            Ok(Resolved::Log { place, length }) => LogbookUri {
                place: place.0,
                length,
                ..LogbookUri::default()
            },
            Ok(Resolved::Implied { place, length }) => LogbookUri {
                implied: 1,
                place,
                length,
                ..LogbookUri::default()
            },
            Err(x) => LogbookUri {
                refusal: Told::from(x).number,
                ..LogbookUri::default()
            },
        }
    }
}

#[unsafe(no_mangle)]
pub extern "C" fn logbook_uri(len: usize, used: usize, row: Row) -> LogbookUri
    ensures { result ≡ uri_as (Calls.resolve len used (row_of row)) }
{
    LogbookUri::from(fit::resolve(len, used, row))
}

impl From<Listed> for LogbookListed {
    ghost from_gives = { λ t x. x ≡ listed_as t };

    fn from(t: Listed) -> LogbookListed {
        LogbookListed {
            length: t.len,
            over: usize::from(t.over),
            reading: t.reading,
        }
    }
}

#[unsafe(no_mangle)]
pub extern "C" fn logbook_list(reading: Reading, file: &[u8], out: &mut [u8]) -> LogbookListed
    ensures { Lists (fill_of file.now (length out.old) (reading_of reading)) out.old out.new result }
{
    LogbookListed::from(listing::fill(reading, file, out))
}

impl From<Result<Shifted, Refusal>> for LogbookShifted {
    ghost from_gives = { λ r x. x ≡ shifted_from r };

    fn from(r: Result<Shifted, Refusal>) -> LogbookShifted {
        match r {
            Ok(s) => LogbookShifted {
                epoch: s.epoch,
                position: s.position,
                point: s.point,
                motion: s.motion,
                ..LogbookShifted::default()
            },
            Err(x) => {
                let t = Told::from(x);
                LogbookShifted {
                    refusal: t.number,
                    place: t.place.0,
                    // Beside the other zeros, so that an edit can try it.
                    epoch: 0,
                    ..LogbookShifted::default()
                }
            }
        }
    }
}

#[unsafe(no_mangle)]
pub extern "C" fn logbook_shift(
    uri: &[u8],
    bytes: &[u8],
    asked: i64,
    motion: Triple,
) -> LogbookShifted
    ensures { result ≡ shifted_as (Epochs.shift uri.now bytes.now asked (triple_of motion)) }
{
    LogbookShifted::from(epoch::shift(uri, bytes, asked, motion))
}
