//! What C calls: sessions over the bytes of files, behind handles.
#![tactic(auto)]

ghost use Rattle.std.specs.Prelude.{◌≡◌, ◌≤◌, ◌<◌, ℕ, ℤ};
ghost use Rattle.std.specs.Borrow.{sem};
ghost use Rattle.std.specs.Global.{Global as GlobalData};
ghost use Rattle.call_words.specs.Tasks.{FromFile, FromTeacher};
ghost use Rattle.walker_run.specs.Effects.{End, Says};
ghost use Rattle.walker_c.specs.Handles.{is_handle, is_handle_where};
ghost use Rattle.walker_c.specs.Opening.{IsOpening, IsLearning, HasOpened, rules_name};
ghost use Rattle.walker_c.specs.Seats.{SeatState, HasAnswered, filled};

mod held;
mod loose;
mod open;
mod seat;

use crate::loose::Loose;
use crate::open::{by_file, by_learning, seated};
use crate::seat::{Seat, TellFault};
use std::alloc::Global;
use walker_run::{Line, Status, Stop};

/// What is told in place of a length where a line holds a line feed: 2^64 less the status of usage.
const NO_LINE: u64 = u64::MAX - 1;

/// What is told where there is no memory: 2^64 less its status.
const NO_MEMORY: u64 = u64::MAX - 10;

/// What a handle points to. C never reads or writes it.
#[repr(C)]
pub struct WagbireluSession {
    hidden: u8,
}

/// Gives a session away as a handle.
fn give(session: Loose<Seat, Global>) -> *mut WagbireluSession
    ensures* { sem 𝓛 (is_handle session.alloc result session.value) }
{
    let Loose { at, alloc: _alloc } = session;
    at as *mut WagbireluSession
}

/// Puts a text into a room, as much of it as fits, and zeros behind it.
fn fill(room: &mut [u8], text: &[u8])
    ensures { room.new ≡ filled room.old text.now }
{
    let count = text.len().min(room.len());
    room[..count].copy_from_slice(&text[..count]);
    room[count..].fill(0);
}

/// Tells why there is no session: by a status, and a line in the room for it.
fn refuse(alloc: Global, stop: Stop, line: &mut [u8]) -> u32
    ensures { (end : End) → ((said : Line) → stop ≡ Stop.Say said → end ≡ Says said)
        → HasOpened line.old line.new end result }
{
    let Stop::Say(said) = stop else {
        return u32::from(Status::Memory.code());
    };
    let Ok(text) = said.text(alloc) else {
        return u32::from(Status::Memory.code());
    };
    fill(line, &text);
    u32::from(said.status().code())
}

/// Opens a session over the bytes of a tessellation file and of a rules file, in the tree of a kind.
#[unsafe(no_mangle)]
pub extern "C" fn wagbirelu_open(
    alloc: Global,
    tess: &[u8],
    rules: &[u8],
    kind: u32,
    line: &mut [u8],
    handle: &mut *mut WagbireluSession,
) -> u32
    ensures { (end : End) × IsOpening tess.now rules.now kind (FromFile rules_name) end
        × HasOpened line.old line.new end result }
{
    match seated(alloc, by_file(alloc, tess, rules, kind)) {
        Ok(session) => {
            fill(line, b"");
            *handle = give(Loose::of(session));
            u32::from(Status::Done.code())
        }
        Err(stop) => refuse(alloc, stop, line),
    }
}

/// Opens a session over the bytes of a tessellation file, with rules that are made for it, in the tree
/// of a kind.
#[unsafe(no_mangle)]
pub extern "C" fn wagbirelu_learn(
    alloc: Global,
    tess: &[u8],
    cells: u32,
    kind: u32,
    line: &mut [u8],
    handle: &mut *mut WagbireluSession,
) -> u32
    ensures { (end : End) × IsLearning tess.now cells kind end
        × HasOpened line.old line.new end result }
{
    match seated(alloc, by_learning(alloc, tess, cells, kind)) {
        Ok(session) => {
            fill(line, b"");
            *handle = give(Loose::of(session));
            u32::from(Status::Done.code())
        }
        Err(stop) => refuse(alloc, stop, line),
    }
}

/// Answers a line, and gives the first bytes of what waits.
fn answer(session: &mut Seat, line: &[u8], room: &mut [u8]) -> u64
    ensures { HasAnswered session.old line.now room.old session.new room.new result }
{
    match session.tell(line) {
        Ok(()) => session.give(room) as u64,
        Err(TellFault::Feeds) => NO_LINE,
        Err(TellFault::Memory) => NO_MEMORY,
    }
}

/// Answers a line, and gives the first bytes of what waits.
#[unsafe(no_mangle)]
pub unsafe extern "C" fn wagbirelu_answer(
    session: *mut WagbireluSession,
    line: &[u8],
    room: &mut [u8],
) -> u64
    ghost before: { GlobalData × SeatState }
    requires* { sem 𝓛 (is_handle before.0 session before.1) }
    ensures* { sem 𝓛 (is_handle_where before.0 session
        (λ after. HasAnswered before.1 line.now room.old after room.new result)) }
{
    answer(unsafe { &mut *(session as *mut Seat) }, line, room)
}

/// Drops a session.
fn drop_session(session: Loose<Seat, Global>) {
    let _ = session.into_box();
}

/// Closes a session.
#[unsafe(no_mangle)]
pub unsafe extern "C" fn wagbirelu_close(alloc: Global, session: *mut WagbireluSession)
    ghost before: { SeatState }
    requires* { sem 𝓛 (is_handle alloc session before) }
{
    drop_session(Loose {
        at: session as *mut Seat,
        alloc,
    })
}
