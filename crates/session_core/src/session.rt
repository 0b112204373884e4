//! `Session`: walkers and texts in the tree of one kind, and what is answered to commands.
ghost use Rattle.std.specs.Prelude.{◌≡◌, ◌<◌, ◌≤◌, ◌↔◌, suc, [], length, replicate, None, Some};
ghost use Rattle.std.specs.Prelude.{MatchOption, ◌⊎◌, IfOk, OnErr, IsTrue};
ghost use Rattle.tree_model.specs.Names.{IsRing};
ghost use Rattle.reply_model.specs.declared.Command.{Command};
ghost use Rattle.lazy_map.specs.Texts.{most_texts};
ghost use Rattle.reply_model.specs.Histories.{History, most_walkers};
ghost use Rattle.session_core.specs.Sessions.{IsSession, HasNumbers, walker_at};
ghost use Rattle.session_core.specs.Sessions.{HaveTexts, StandsFor, StandsForWalks, session_over_tree};
ghost use Rattle.session_core.specs.Sessions.{session_over};
ghost use Rattle.session_core.specs.Answered.{HasAnswered, Asks, IsBrief, refusal_of};

use crate::resting::Resting;
use cell_distance::{DistFault, spot_distance, spot_shortest};
use lazy_map::{LazyMap, PutFault};
use reply_model::{Bytes, Command, Reply, WALKERS};
use ring_listing::{CountFault, Ring, RingSizes};
use std::alloc::{AllocError, Global};
use std::marker::Model;
use step_engine::{StepFault, root_spot, walk};
use structure_check::Rules;
use turn_rules::Spot;
use walk_words::Walk;

/// The most tiles of a ring that is listed.
const MOST_LISTED: u128 = 100_000;

/// Walkers and texts in the tree of one kind. It borrows the rules.
/// The sizes of rings that were counted are remembered.
#[derive(Drop)]
pub struct Session<'r> {
    rules: &'r Rules,
    kind: u8,
    walkers: Vec<Option<Spot>>,
    texts: LazyMap,
    rings: RingSizes<'r>,
}

impl<'r> Model for Session<'r> {
    ghost use Rattle.session_core.specs.Sessions.{SessionState, HasItsRings};

    ghost Value = { SessionState };

    ghost view = { λ s. record {
      rules = s.rules.now;
      kind = s.kind;
      walkers = s.walkers.items;
      texts = s.texts;
    } };

    ghost invariant = { λ s. HasItsRings (record {
      rules = s.rules.now;
      kind = s.kind;
      walkers = s.walkers.items;
      texts = s.texts;
    }) s.rings };
}

impl<'r> Session<'r> {
    /// A session without walkers and texts in the tree of a kind, which is one of the tessellation.
    pub fn new(alloc: Global, rules: &'r Rules, kind: u8) -> Result<Session<'r>, AllocError>
        requires { kind < length rules.now.kinds }
        ensures stands_over_walks { IfOk result (λ s. StandsForWalks s []) }
        ensures stands { IfOk result (λ s. StandsFor s []) }
        ensures rules { IfOk result (λ s. s.rules ≡ rules.now) }
        ensures kind { IfOk result (λ s. s.kind ≡ kind) }
        ensures unwritten { IfOk result (λ s. s.texts ≡ []) }
    {
        // All answers rest on the rules being accepted. This call tells it, once for the session.
        let _automaton = rules.automaton();
        Ok(Session {
            rules,
            kind,
            walkers: no_walkers(alloc)?,
            texts: LazyMap::new(alloc)?,
            rings: RingSizes::new(alloc, rules, kind),
        })
    }

    /// Goes on from where a session came to rest, over the rules that it was over. Takes no memory.
    pub fn resume(rules: &'r Rules, resting: Resting) -> Session<'r>
        requires { IsSession (session_over rules.now resting) }
        ensures { result ≡ session_over rules.now resting }
    {
        let Resting {
            kind,
            walkers,
            texts,
        } = resting;
        let rings = RingSizes::new(*walkers.allocator(), rules, kind);
        Session {
            rules,
            kind,
            walkers,
            texts,
            rings,
        }
    }

    /// Lets go of the rules, and keeps the walkers and the texts. The sizes of rings that were
    /// counted are forgotten.
    pub fn rest(self) -> Resting
        ensures rests { session_over self.entry.rules result ≡ self.entry }
        ensures session { IsSession self.entry }
    {
        let Session {
            rules: _,
            kind,
            walkers,
            texts,
            rings: _,
        } = self;
        Resting {
            kind,
            walkers,
            texts,
        }
    }

    /// Does what the command says and answers its reply.
    /// The numbers of walkers in the command are below 64, and fewer than 4,294,967,295 tiles have a text.
    /// To `ring` it answers how many names there are, and [`Session::names_of_ring`] gives them.
    /// Out of memory all walkers and texts are as they were.
    pub fn apply(&mut self, c: &Command) -> Result<Reply, AllocError>
        requires numbers { HasNumbers c.now }
        requires room { length self.old.texts < most_texts }

        // The reply is the one that is due after each history for which the session stands.
        // The session stands then for that history with the command and its reply behind it.
        // This is said over the tree, and `laws::readings` leads from there to what walks say.
        // After want of memory the session stands for the same histories as before.
        ensures answered { IfOk result (λ x. HasAnswered self.old c.now x self.new) }
        ensures unchanged { OnErr result (self.new ≡ self.old) }
        ensures rules { self.new.rules ≡ self.old.rules }
        ensures kind { self.new.kind ≡ self.old.kind }

        // A command that asks leaves walkers and texts as they were, and any other has a brief reply.
        ensures asked { Asks c.now → self.new ≡ self.old }
        ensures brief { IfOk result (λ x. Asks c.now ⊎ IsBrief x) }

        // At most one tile more has a text.
        ensures written { length self.new.texts ≤ suc (length self.old.texts) }
    {
        match c {
            Command::New(w) => self.new_walker(*w),
            Command::Go(w, walk) => self.go(*w, walk),
            Command::At(w) => self.at(*w),
            Command::Same(w, v) => Ok(self.same(*w, *v)),
            Command::Level(w) => Ok(self.level(*w)),
            Command::Dist(w, v) => self.distance(*w, *v),
            Command::Path(w, v) => self.path(*w, *v),
            Command::Put(w, text) => self.put(*w, text),
            Command::Get(w) => self.get(*w),
            Command::Ring(d) => self.ring(*d),
            Command::Count(d) => self.count(*d),
        }
    }

    /// How many tiles have a text. Takes no memory.
    pub fn written(&self) -> u32
        ensures tiles { (history : History)
            → StandsFor self.now history
            → HaveTexts (session_over_tree self.now) self.now.kind history result }
        ensures count { result ≡ length self.now.texts }
        ensures session { IsSession self.now }
    {
        self.texts.len()
    }

    /// The names of the tiles `d` crossings away from the root, in their order.
    pub fn names_of_ring(&self, d: u32) -> Result<Ring<'r>, AllocError>
        ensures session { IsSession self.now }
        ensures names { IfOk result (λ ring.
            IsRing self.now.rules.kinds self.now.rules.automaton self.now.kind d ring.rest) }
    {
        Ring::of(*self.walkers.allocator(), self.rules, self.kind, d)
    }

    /// The spot of walker `w`, if there is this walker.
    fn spot(&self, w: u8) -> Option<&Spot>
        requires { w < most_walkers }
        ensures found { MatchOption result
            (walker_at self.now w ≡ None)
            (λ s. walker_at self.now w ≡ Some s.now) }
        ensures session { IsSession self.now }
    {
        self.walkers[w as usize].as_ref()
    }

    /// Makes walker `w`, at the root.
    fn new_walker(&mut self, w: u8) -> Result<Reply, AllocError>
        requires { w < most_walkers }
        ensures answered { IfOk result (λ x. HasAnswered self.old (Command.New w) x self.new) }
        ensures brief { IfOk result IsBrief }
        ensures unchanged { OnErr result (self.new ≡ self.old) }
        ensures texts { self.new.texts ≡ self.old.texts }
    {
        if self.spot(w).is_some() {
            return Ok(Reply::Taken);
        }
        let spot = root_spot(*self.walkers.allocator(), self.rules, self.kind)?;
        self.walkers[w as usize] = Some(spot);
        Ok(Reply::Done)
    }

    /// Walker `w` goes along a walk. Where some crossing lies too deep it stays where it is.
    fn go(&mut self, w: u8, path: &Walk) -> Result<Reply, AllocError>
        requires { w < most_walkers }
        ensures answered { IfOk result
            (λ x. HasAnswered self.old (Command.Go w path.now) x self.new) }
        ensures brief { IfOk result IsBrief }
        ensures unchanged { OnErr result (self.new ≡ self.old) }
        ensures texts { self.new.texts ≡ self.old.texts }
    {
        let Some(spot) = &mut self.walkers[w as usize] else {
            return Ok(Reply::NoWalker);
        };
        match walk(spot, self.rules, path) {
            Ok(()) => Ok(Reply::Done),
            Err(StepFault::Deep) => Ok(Reply::Deep),
            Err(StepFault::Memory) => Err(AllocError),
        }
    }

    /// Where walker `w` stands.
    fn at(&self, w: u8) -> Result<Reply, AllocError>
        requires { w < most_walkers }
        ensures { IfOk result (λ x. HasAnswered self.now (Command.At w) x self.now) }
    {
        let Some(spot) = self.spot(w) else {
            return Ok(Reply::NoWalker);
        };
        Ok(Reply::At {
            name: spot.name().copy(*self.walkers.allocator())?,
            spin: spot.spin(),
            kind: spot.kind(self.rules),
        })
    }

    /// Whether the walkers `w` and `v` stand on one tile.
    fn same(&self, w: u8, v: u8) -> Reply
        requires first { w < most_walkers }
        requires second { v < most_walkers }
        ensures { HasAnswered self.now (Command.Same w v) result self.now }
    {
        let Some(first) = self.spot(w) else {
            return Reply::NoWalker;
        };
        let Some(second) = self.spot(v) else {
            return Reply::NoWalker;
        };
        if are_together(first, second) {
            Reply::Yes
        } else {
            Reply::No
        }
    }

    /// How many crossings walker `w` is away from the root.
    fn level(&self, w: u8) -> Reply
        requires { w < most_walkers }
        ensures { HasAnswered self.now (Command.Level w) result self.now }
    {
        match self.spot(w) {
            Some(spot) => Reply::Level(spot.level() as u32),
            None => Reply::NoWalker,
        }
    }

    /// How many crossings walker `v` is away from walker `w`.
    fn distance(&self, w: u8, v: u8) -> Result<Reply, AllocError>
        requires first { w < most_walkers }
        requires second { v < most_walkers }
        ensures { IfOk result (λ x. HasAnswered self.now (Command.Dist w v) x self.now) }
    {
        let Some(first) = self.spot(w) else {
            return Ok(Reply::NoWalker);
        };
        let Some(second) = self.spot(v) else {
            return Ok(Reply::NoWalker);
        };
        match spot_distance(*self.walkers.allocator(), self.rules, first, second) {
            Ok(crossings) => Ok(Reply::Dist(crossings)),
            Err(DistFault::Deep) => Ok(Reply::Deep),
            Err(DistFault::Memory) => Err(AllocError),
        }
    }

    /// A shortest walk from walker `w` to the tile of walker `v`.
    fn path(&self, w: u8, v: u8) -> Result<Reply, AllocError>
        requires first { w < most_walkers }
        requires second { v < most_walkers }
        ensures { IfOk result (λ x. HasAnswered self.now (Command.Path w v) x self.now) }
    {
        let Some(first) = self.spot(w) else {
            return Ok(Reply::NoWalker);
        };
        let Some(second) = self.spot(v) else {
            return Ok(Reply::NoWalker);
        };
        match spot_shortest(*self.walkers.allocator(), self.rules, first, second) {
            Ok(way) => Ok(Reply::Path(way)),
            Err(DistFault::Deep) => Ok(Reply::Deep),
            Err(DistFault::Memory) => Err(AllocError),
        }
    }

    /// Writes a text on the tile of walker `w`.
    fn put(&mut self, w: u8, text: &Bytes) -> Result<Reply, AllocError>
        requires below { w < most_walkers }
        requires room { length self.old.texts < most_texts }
        ensures answered { IfOk result
            (λ x. HasAnswered self.old (Command.Put w text.now) x self.new) }
        ensures brief { IfOk result IsBrief }
        ensures unchanged { OnErr result (self.new ≡ self.old) }
        ensures written { length self.new.texts ≤ suc (length self.old.texts) }
    {
        let Some(spot) = &self.walkers[w as usize] else {
            return Ok(Reply::NoWalker);
        };
        match self.texts.put(spot.name(), text.as_slice()) {
            Ok(()) => Ok(Reply::Done),
            Err(PutFault::Long) => Ok(Reply::Long),
            Err(PutFault::Memory) => Err(AllocError),
        }
    }

    /// The text on the tile of walker `w`.
    fn get(&self, w: u8) -> Result<Reply, AllocError>
        requires { w < most_walkers }
        ensures { IfOk result (λ x. HasAnswered self.now (Command.Get w) x self.now) }
    {
        let Some(spot) = self.spot(w) else {
            return Ok(Reply::NoWalker);
        };
        match self.texts.get(spot.name()) {
            Some(text) => Ok(Reply::Text(Bytes::copy_of(*self.walkers.allocator(), text)?)),
            None => Ok(Reply::NoText),
        }
    }

    /// How many tiles are listed as ring `d`.
    fn ring(&mut self, d: u32) -> Result<Reply, AllocError>
        ensures answered { IfOk result (λ x. HasAnswered self.old (Command.Ring d) x self.new) }
        ensures unchanged { self.new ≡ self.old }
    {
        match self.rings.count(d) {
            Ok(size) if size > MOST_LISTED => Ok(Reply::TooMany(size)),
            Ok(size) => Ok(Reply::Tiles { d, size }),
            Err(fault) => refusal(fault),
        }
    }

    /// How many tiles lie `d` crossings away from the root.
    fn count(&mut self, d: u32) -> Result<Reply, AllocError>
        ensures answered { IfOk result (λ x. HasAnswered self.old (Command.Count d) x self.new) }
        ensures unchanged { self.new ≡ self.old }
    {
        match self.rings.count(d) {
            Ok(size) => Ok(Reply::Count(size)),
            Err(fault) => refusal(fault),
        }
    }
}

/// The reply that refuses to count a ring.
fn refusal(fault: CountFault) -> Result<Reply, AllocError>
    ensures { IfOk result (λ x. refusal_of fault ≡ Some x) }
{
    match fault {
        CountFault::Far => Ok(Reply::Far),
        CountFault::TooBig(r) => Ok(Reply::TooBig(r)),
        CountFault::Memory => Err(AllocError),
    }
}

/// As many places as there can be walkers, all of them empty.
fn no_walkers(alloc: Global) -> Result<Vec<Option<Spot>>, AllocError>
    ensures { IfOk result (λ v. v.items ≡ replicate most_walkers None) }
{
    let mut walkers = Vec::with_capacity(alloc, WALKERS as usize)?;
    for _place in 0..WALKERS {
        walkers.push(None)?;
    }
    Ok(walkers)
}

/// Whether two spots stand at tiles of one name.
fn are_together(first: &Spot, second: &Spot) -> bool
    ensures { IsTrue result ↔ (first.now.name ≡ second.now.name) }
{
    first.name() == second.name()
}
