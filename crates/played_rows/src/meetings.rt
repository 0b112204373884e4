// Walkers on all ways of a few steps, compared with a slow program that knows no rules.
use crate::ball::Ball;
use crate::call::{call, sink, source};
use crate::stage::Stage;
use crate::told::{halves, number, tell};
use std::alloc::{AllocError, Global};
use tess_text::read_tess;
use tile_kinds::Tessellation;

const WALKERS: u8 = 64;

/// A turn, by one or two sides to the left or to the right, and a crossing.
static STEPS: [&str; 4] = ["LX", "RX", "LLX", "RRX"];

fn step(digit: u8) -> &'static str {
    STEPS.get(digit as usize).copied().unwrap_or("X")
}

// The way of the walker of a number: three steps by the digits of the number, and a last one.
fn way(alloc: Global, number: u8, last: u8) -> Result<String, AllocError> {
    let (one, two, three) = (
        step(number % 4),
        step(number / 4 % 4),
        step(number / 16 % 4),
    );
    let end = step(last);
    format!(in alloc; "{one}{two}{three}{end}")
}

/// Commands, and the replies that the slow program gives to them.
#[derive(Drop)]
struct Stream {
    commands: Vec<u8>,
    replies: Vec<u8>,
}

impl Stream {
    fn add(&mut self, command: &str, reply: &str) -> Result<(), AllocError> {
        self.commands.extend_from_slice(command.as_bytes())?;
        self.replies.extend_from_slice(reply.as_bytes())
    }
}

// The last of the first `count` walkers that stands on the tile.
fn last_on(tiles: &[u32], tile: u32, count: u8) -> Option<u8> {
    (0..count)
        .rev()
        .find(|w| tiles.get(*w as usize) == Some(&tile))
}

// Sends all walkers on their ways, and answers with the numbers of the tiles where these end.
fn add_ways(
    alloc: Global,
    ball: &Ball<'_>,
    last: u8,
    stream: &mut Stream,
) -> Result<Vec<u32>, AllocError> {
    let mut tiles = Vec::new(alloc);
    for w in 0..WALKERS {
        let way = way(alloc, w, last)?;
        let tile = ball.walk(0, &way).and_then(|side| ball.tile(side));
        tiles.push(tile.unwrap_or(u32::MAX))?;
        stream.add(
            format!(in alloc; "new {w}\ngo {w} {way}\n")?.as_str(),
            "ok\nok\n",
        )?;
    }
    Ok(tiles)
}

// Each walker reads, now and then, what was last written on its tile, where one walker after the
// other writes its number.
fn add_texts(alloc: Global, tiles: &[u32], stream: &mut Stream) -> Result<(), AllocError> {
    for w in 0..WALKERS {
        stream.add(format!(in alloc; "put {w} {w}\n")?.as_str(), "ok\n")?;
        if w % 16 != 15 {
            continue;
        }
        for (v, tile) in (0..WALKERS).zip(tiles) {
            let reply = match last_on(tiles, *tile, w.saturating_add(1)) {
                Some(writer) => format!(in alloc; "text {writer}\n")?,
                None => String::from_str(alloc, "none\n")?,
            };
            stream.add(format!(in alloc; "get {v}\n")?.as_str(), &reply)?;
        }
    }
    Ok(())
}

// Which walkers are on one tile, and how far they are from each other; the number of ordered pairs
// of walkers on one tile.
fn add_pairs(
    alloc: Global,
    ball: &Ball<'_>,
    tiles: &[u32],
    stream: &mut Stream,
) -> Result<u32, AllocError> {
    let mut count: u32 = 0;
    for (w, here) in (0..WALKERS).zip(tiles) {
        let distances = ball.distances(alloc, *here)?;
        for (v, there) in (0..WALKERS).zip(tiles) {
            let same = if here == there { "yes" } else { "no" };
            let far = match distances.get(*there as usize) {
                Some(Some(far)) => *far,
                _ => u32::MAX,
            };
            stream.add(
                format!(in alloc; "same {w} {v}\ndist {w} {v}\n")?.as_str(),
                format!(in alloc; "{same}\ndist {far}\n")?.as_str(),
            )?;
            count = count.saturating_add(u32::from(here == there));
        }
    }
    Ok(count)
}

fn tessellation(alloc: Global, bytes: &[u8]) -> Option<Tessellation> {
    if bytes.len() > 100_000 {
        return None;
    }
    read_tess(alloc, bytes).ok()
}

/// How many ordered pairs of 64 walkers come to be on one tile, for each of four last steps, where
/// the program and the slow one agree in all that they say. The slow one grows the tiles that lie
/// across so many sides.
pub(crate) fn tell_meetings(
    stage: &mut Stage,
    rest: &str,
    said: &mut Vec<u8>,
) -> Result<(), AllocError> {
    let alloc = stage.alloc;
    let (sides, rest) = halves(rest, " ");
    let (name, words) = halves(rest, " ");
    let Some(tess) = tessellation(alloc, &stage.content(name)?) else {
        return tell(said, "no tessellation\n");
    };
    let ball = Ball::grow(alloc, &tess, number(sides))?;
    for last in 0..4 {
        let mut stream = Stream {
            commands: Vec::new(alloc),
            replies: Vec::new(alloc),
        };
        let tiles = add_ways(alloc, &ball, last, &mut stream)?;
        add_texts(alloc, &tiles, &mut stream)?;
        let count = add_pairs(alloc, &ball, &tiles, &mut stream)?;
        let mut input = source(alloc, &stream.commands, 4_096, &[])?;
        let mut out = sink(alloc, 1_000_000, 9_973, &[])?;
        let code = call(alloc, words, &mut stage.files()?, &mut input, &mut out)?;
        let agree = code == 0 && out.taken() == stream.replies.as_slice();
        let line = format!(in alloc; "last step {last}: {count} pairs, agree {agree}\n")?;
        tell(said, line.as_str())?;
    }
    Ok(())
}
