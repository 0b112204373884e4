// A session and a stream, each called once, and the laws over them.
ghost use Rattle.std.specs.Prelude.{◌≤◌, length, IsTrue};
ghost use Rattle.session_core.specs.Sessions.{HasNumbers};

use line_server::{Ending, serve};
use reply_model::{Bytes, Command, Reply, WALKERS};
use sample_tilings::pentagons;
use session_core::{Session, laws};
use std::alloc::{AllocError, Global};
use std::test::Fail;
use structure_check::Rules;
use way_io::{MemSink, MemSource};

fn has_numbers(c: &Command) -> bool
    ensures { IsTrue result → HasNumbers c.now }
{
    match c {
        Command::New(w) => *w < WALKERS,
        Command::Go(w, _) => *w < WALKERS,
        Command::At(w) | Command::Level(w) | Command::Get(w) => *w < WALKERS,
        Command::Put(w, _) => *w < WALKERS,
        Command::Ring(_) | Command::Count(_) => true,
        Command::Same(w, v) | Command::Dist(w, v) | Command::Path(w, v) => {
            *w < WALKERS && *v < WALKERS
        }
    }
}

// The reply to a command, or None where the numbers in it are none, or no more texts can be kept.
fn answer(session: &mut Session<'_>, c: &Command) -> Result<Option<Reply>, AllocError> {
    if !has_numbers(c) || session.written() == u32::MAX {
        return Ok(None);
    }
    Ok(Some(session.apply(c)?))
}

// The number of tiles with a text after two texts on the first tile.
fn texts_on_one_tile(alloc: Global, rules: &Rules) -> Result<Option<u32>, AllocError>
    requires { 1 ≤ length rules.now.kinds }
{
    laws::interleaving(rules, 0);
    let mut session = Session::new(alloc, rules, 0)?;
    laws::readings(&session);
    let Some(Reply::Done) = answer(&mut session, &Command::New(0))? else {
        return Ok(None);
    };
    for text in [b"red".as_slice(), b""] {
        let put = Command::Put(0, Bytes::copy_of(alloc, text)?);
        let Some(Reply::Done) = answer(&mut session, &put)? else {
            return Ok(None);
        };
    }
    Ok(Some(session.written()))
}

#[test]
fn two_texts_on_a_tile_are_one(rt: HostRuntime) -> Result<(), Fail> {
    let Some(rules) = pentagons(rt.alloc()) else {
        panic!(rt; "no rules");
    };
    assert_eq!(rt; texts_on_one_tile(rt.alloc(), &rules)?, Some(1));
    Ok(())
}

// Whether a stream is served, and this is written.
fn is_served(alloc: Global, rules: &Rules) -> Result<bool, AllocError>
    requires { 1 ≤ length rules.now.kinds }
{
    line_server::laws::outputs();
    line_server::laws::readings();
    let mut session = Session::new(alloc, rules, 0)?;
    let mut input = MemSource::new(alloc, b"new 0\nat 0\n", 4, &[])?;
    let mut out = MemSink::new(alloc, 200, 7, &[])?;
    let ending = serve(alloc, &mut session, &mut input, &mut out);
    Ok(ending == Ending::Done && out.taken() == b"ok\nat - 0 0\n".as_slice())
}

#[test]
fn a_stream_is_served(rt: HostRuntime) -> Result<(), Fail> {
    let Some(rules) = pentagons(rt.alloc()) else {
        panic!(rt; "no rules");
    };
    assert!(rt; is_served(rt.alloc(), &rules)?);
    Ok(())
}
