//! The board, and the calls by which passes take its turns.

ghost use Rattle.std.specs.Prelude.{◌≡◌, ◌+◌, ◌-◌, ◌≤◌, ◌<◌, vec_capacity, [], ◌∷◌, IfSome, IfOk, IfErr, Option, Some, None, List, length};
ghost use Rattle.graph_model.specs.declared.graph.Base.{Base};
ghost use Rattle.core_states.specs.Parts.{Part};
ghost use Rattle.turn_board.specs.Views.{View, Done, Held, Shown, Belongs, fresh_view, taking, finding_busy, splitting, split_off, joining, start_of, IsLast};
ghost use Rattle.turn_board.specs.Works.{Leads, IsGiven, giving};
ghost use Rattle.turn_board.specs.Turns.{MayTake, Told, IsNewest, word_of};
ghost use Rattle.turn_board.specs.Spread.{slot_of, turns_in};
ghost use Rattle.turn_board.specs.Board.{Opens, Ends, known, turns, Knowing, Ready, SameSeat, HoldsLast, Took};
ghost use Rattle.turn_board.specs.Takes.{OnTaken, OnBusy};

use crate::events::{Happens, ShowsPart};
use crate::opened::Opened;
use crate::slots::{APART, all_out, gathered, slot_at, spread_out};
use crate::take::Take;
use crate::view::View;
use atomic_table::{Join, Play, Refused, Seat, Split, Table, TableRule};
use graph_model::Base;
use std::alloc::Global;
use std::hint;
use std::marker::{Brand, PhantomData};
use std::snapshot::Snapshot;
use std::sync::Wait;
use std::thread::yield_now;

/// The word of a turn whose value is at home.
const HOME: u64 = 0;

/// The word of a turn that is taken.
const OUT: u64 = 1;

/// The word of a turn that is taken, where a thread may wait for it.
const AWAITED: u64 = 2;

/// How often a thread looks at a turn, with a pause after each look, before it lets others run. A pause takes 5 ns on one
/// processor and 60 on another.
const LOOKS: u32 = 100;

/// How often it then lets others run, and looks again, before it sleeps.
const YIELDS: u32 = 100;

/// Words of neighbouring turns are this many words apart, so that they lie in different cache lines.
const SPACING: usize = 16;

/// What holds between any two steps.
pub struct Turns;

impl<H: ShowsPart> TableRule<Option<H>, View, Opened<H>> for Turns {
    ghost use Rattle.std.specs.Prelude.{[]};
    ghost use Rattle.turn_board.specs.Views.{fresh_view};
    ghost use Rattle.turn_board.specs.Board.{IsBoard};
    ghost use Rattle.turn_board.specs.Starts.{start_in};

    ghost holds = { λ opened. IsBoard (start_in H.shown opened) H.shown };

    ghost first = { λ opened. fresh_view (start_in H.shown opened) [] [] [] };
}

struct Takes;

impl<H: ShowsPart> Play<Option<H>, View> for Takes {
    ghost use Rattle.turn_board.specs.Board.{takes_turn};

    ghost then = { takes_turn H.shown };
}

struct Tries;

impl<H: ShowsPart> Play<Option<H>, View> for Tries {
    ghost use Rattle.turn_board.specs.Board.{tries_turn};

    ghost then = { tries_turn H.shown };
}

/// What a pass becomes by a give, and the part that it gives.
trait Next {
    ghost next: { View };

    ghost given: { Part };
}

impl Next for Brand {
    ghost use Rattle.std.specs.Prelude.{[]};
    ghost use Rattle.core_states.specs.Parts.{OfShard};
    ghost use Rattle.turn_board.specs.Views.{spent_view};

    ghost next = { spent_view };

    ghost given = { OfShard [] };
}

struct Gives<N> {
    next: PhantomData<N>,
}

impl<H: ShowsPart, N: Next> Play<Option<H>, View> for Gives<N> {
    ghost use Rattle.turn_board.specs.Board.{gives_turn};

    ghost then = { gives_turn N.next N.given };
}

/// The base that a board was made for.
trait MadeFor {
    ghost base: { Base };
}

impl MadeFor for Brand {
    ghost use Rattle.turn_board.specs.Views.{no_base};

    ghost base = { no_base };
}

struct Looks<N> {
    made_for: PhantomData<N>,
}

impl<H: ShowsPart, N: MadeFor> Play<Option<H>, View> for Looks<N> {
    ghost use Rattle.turn_board.specs.Board.{shows_base};

    ghost then = { shows_base N.base };
}

/// How passes are split and joined.
struct Parting;

impl Split<View> for Parting {
    ghost use Rattle.turn_board.specs.Views.{splitting, split_off};

    ghost left = { splitting };

    ghost right = { split_off };
}

impl Join<View> for Parting {
    ghost use Rattle.turn_board.specs.Views.{joining, spent_view};

    ghost both = { joining };

    ghost spent = { spent_view };
}

/// What one thread knows, and the turns that it holds. It has no bytes.
pub type Pass<H> = Seat<Option<H>, View>;

/// The turns of the shards, then the clock's, and last the log's. A thread takes them through a `&`.
pub struct TurnBoard<H: ShowsPart> {
    // Room for the values, so that they come back without memory.
    room: Vec<Option<H>>,
    table: Table<Option<H>, View, Opened<H>, Turns, Global>,
    ghost spaced: { table.shared.table_id.words ≡ word_of (turns_in table.shared.table_id.slots) },
    ghost apart: { table.shared.table_id.slots ≡ slot_of (turns_in table.shared.table_id.slots) },
    ghost few: { (0 < turns_in table.shared.table_id.slots) × (turns_in table.shared.table_id.slots ≤ 66) },
    ghost empty: { room.items ≡ [] },
    ghost roomy: { turns_in table.shared.table_id.slots ≤ vec_capacity room },
}

// The word of a turn.
fn word_at(turn: u32) -> usize
    requires { turn ≤ 66 }
    ensures { result ≡ word_of turn }
{
    turn as usize * SPACING
}

impl<H: ShowsPart> TurnBoard<H> {
    ghost use Rattle.turn_board.specs.Boards.{IsOf, base_of};
    ghost use Rattle.turn_board.specs.Openings.{limits_of};
    ghost use Rattle.turn_board.specs.Starts.{found_in, shards_in};

    // A board of these values, in the order of the turns, and the first pass. Where there is no memory they come back.
    pub(crate) fn make_of(
        alloc: Global,
        base: &Base,
        log_most: u64,
        values: Vec<Option<H>>,
    ) -> Result<(TurnBoard<H>, Pass<H>), Vec<Option<H>>>
        requires opens { Opens base.now (limits_of log_most) H.shown values.items }
        ensures board { IfOk result (λ b. IsOf b.0 b.1 × (turns b.1 ≡ length values.items)) }
        ensures pass { IfOk result (λ b. Knowing b.1 (fresh_view (record {
          base = base.now;
          limits = limits_of log_most;
          found = found_in H.shown values.items;
          shards = shards_in values.items;
        }) [] [] [])) }
        ensures unchanged { IfErr result (λ refused. refused.items ≡ values.items) }
    {
        let count = values.len() * SPACING;
        let Ok(words) = vec![in alloc; HOME; count] else {
            return Err(values);
        };
        let Ok(room) = Vec::with_capacity(alloc, values.len()) else {
            return Err(values);
        };
        let Ok(slots) = Vec::with_capacity(alloc, values.len() * APART) else {
            room.destroy_empty();
            return Err(values);
        };
        let opened = Opened {
            base: Snapshot::of(base),
            log_most,
            values: Snapshot::of(&values),
        };
        match Table::new(alloc, words.as_slice(), spread_out(values, slots), &opened) {
            Ok((table, pass)) => Ok((TurnBoard { room, table }, pass)),
            Err(refused) => {
                let Refused { slots } = refused;
                Err(gathered(slots, room))
            }
        }
    }

    /// Waits until the turn is at home, and takes it with its value.
    ///
    /// Nothing here says that the wait ends. It takes no memory.
    pub fn take<R: Wait>(&self, rt: &R, pass: &mut Pass<H>, turn: u32) -> H
        requires own { IsOf self.now pass.old }
        requires ready { Ready pass.old }
        requires free { MayTake (turns pass.old) turn (known pass.old).held }
        ensures taken { Knowing pass.new (taking turn (H.shown result).part (known pass.old)) }
        ensures told { Told (turns pass.new) (known pass.new) }
        ensures newest { IsNewest (H.shown result).part (known pass.old) }
        ensures belongs { Belongs (start_of (known pass.old)) turn (H.shown result) }
        ensures keeps { SameSeat pass.old pass.new }
    {
        for _ in rt.forever() {
            if let Some(value) = self.take_or_wait(rt, pass, turn) {
                return value;
            }
        }
        unreachable!()
    }

    /// Takes the turn with its value where it is at home. Else it mostly waits until the turn is given, and takes nothing:
    /// so a thread that no longer needs the turn by then does not wait for it again.
    ///
    /// Nothing here says that the wait ends. It takes no memory.
    pub fn take_or_wait<R: Wait>(&self, rt: &R, pass: &mut Pass<H>, turn: u32) -> Option<H>
        requires own { IsOf self.now pass.old }
        requires ready { Ready pass.old }
        requires free { MayTake (turns pass.old) turn (known pass.old).held }
        ensures taken { IfSome result (Took H.shown turn pass.old pass.new) }
        ensures none { result ≡ None → pass.new.me ≡ pass.old.me }
        ensures keeps { SameSeat pass.old pass.new }
    {
        if let Some(value) = self.take_quietly(pass, turn) {
            return Some(value);
        }
        let word = word_at(turn);
        if self.comes_home(word) {
            return None;
        }
        let taken = self.take_or_mark(pass, turn);
        if taken.is_none() {
            self.table.shared.park(rt, word, AWAITED as u32);
        }
        taken
    }

    // Whether a turn that is out comes home soon. A turn is mostly given back within a few steps, and a thread that is put
    // to sleep takes long to wake; but one that looks on and on keeps a processor from the others, and from the disk.
    fn comes_home(&self, word: usize) -> bool
        requires { word < self.now.table.shared.table_id.words }
    {
        for _ in 0..LOOKS {
            if self.table.shared.peek(word) == HOME {
                return true;
            }
            hint::spin_loop();
        }
        for _ in 0..YIELDS {
            yield_now();
            if self.table.shared.peek(word) == HOME {
                return true;
            }
        }
        false
    }

    /// Takes the turn with its value, or finds it taken, in one try. It never waits, and takes no memory.
    pub fn try_take(&self, pass: &mut Pass<H>, turn: u32) -> Take<H>
        requires own { IsOf self.now pass.old }
        requires ready { Ready pass.old }
        requires free { MayTake (turns pass.old) turn (known pass.old).held }
        ensures taken { OnTaken (Took H.shown turn pass.old pass.new) result }
        ensures busy { OnBusy (λ k. (k ≡ turn) × Knowing pass.new (finding_busy turn (known pass.old))) result }
        ensures keeps { SameSeat pass.old pass.new }
    {
        let word = word_at(turn);
        let found = self
            .table
            .shared
            .compare_exchange::<Tries>(pass, word, HOME, OUT);
        if found != HOME {
            return Take::Busy { turn };
        }
        let slot = slot_at(turn);
        match self.table.shared.exchange(pass, slot, None) {
            Some(value) => Take::Taken(value),
            None => unreachable!(),
        }
    }

    // One try, which notes nothing where it fails. It looks first, so that many threads that try leave the word to the
    // one that has the turn.
    fn take_quietly(&self, pass: &mut Pass<H>, turn: u32) -> Option<H>
        requires own { IsOf self.now pass.old }
        requires ready { Ready pass.old }
        requires free { MayTake (turns pass.old) turn (known pass.old).held }
        ensures taken { IfSome result (Took H.shown turn pass.old pass.new) }
        ensures none { result ≡ None → pass.new.me ≡ pass.old.me }
        ensures keeps { SameSeat pass.old pass.new }
    {
        let word = word_at(turn);
        if self.table.shared.peek(word) != HOME {
            return None;
        }
        let found = self
            .table
            .shared
            .compare_exchange::<Takes>(pass, word, HOME, OUT);
        if found == HOME {
            let slot = slot_at(turn);
            self.table.shared.exchange(pass, slot, None)
        } else {
            None
        }
    }

    // One try, which leaves a mark that a thread waits.
    fn take_or_mark(&self, pass: &mut Pass<H>, turn: u32) -> Option<H>
        requires own { IsOf self.now pass.old }
        requires ready { Ready pass.old }
        requires free { MayTake (turns pass.old) turn (known pass.old).held }
        ensures taken { IfSome result (Took H.shown turn pass.old pass.new) }
        ensures none { result ≡ None → pass.new.me ≡ pass.old.me }
        ensures keeps { SameSeat pass.old pass.new }
    {
        let word = word_at(turn);
        if self.table.shared.swap::<Takes>(pass, word, AWAITED) == HOME {
            let slot = slot_at(turn);
            self.table.shared.exchange(pass, slot, None)
        } else {
            None
        }
    }

    /// Gives the turn that was taken last back, with its value, on which `done` was done. It wakes the threads
    /// that wait for the turn, and takes no memory.
    ///
    /// Each event is by an actor of the pass, works on the parts of the turns that the pass holds, and has the
    /// answer that the core gives. The value shows what they leave, one after another, of the part of this
    /// turn, and belongs there. A turn that the pass still holds, as the log's where this is the clock's, has the part
    /// that they left.
    pub fn give<E: Happens>(&self, pass: &mut Pass<H>, turn: u32, value: H, done: &E)
        requires own { IsOf self.now pass.old }
        requires ready { Ready pass.old }
        requires turn { HoldsLast turn pass.old }
        requires events { Leads (turns pass.old - 2) (known pass.old) (E.events done.now (known pass.old))
            (H.shown value).part }
        requires belongs { Belongs (start_of (known pass.old)) turn (H.shown value) }
        ensures given { Knowing pass.new (giving (E.events done.now (known pass.old)) (known pass.old)) }
        ensures told { Told (turns pass.new) (known pass.new) }
        ensures newest { IsNewest (H.shown value).part (known pass.old) }
        ensures keeps { SameSeat pass.old pass.new }
    {
        self.bring_home::<Brand, E>(pass, turn, value, done)
    }

    // The value goes home, and the turn with it. The pass becomes the one that N names.
    fn bring_home<N: Next, E: Happens>(&self, pass: &mut Pass<H>, turn: u32, value: H, _done: &E)
        requires own { IsOf self.now pass.old }
        requires ready { Ready pass.old }
        requires turn { HoldsLast turn pass.old }
        requires events { IsGiven (turns pass.old - 2) (known pass.old) (H.shown value).part N.next N.given }
        requires belongs { Belongs (start_of (known pass.old)) turn (H.shown value) }
        ensures given { Knowing pass.new N.next }
        ensures told { Told (turns pass.new) N.next }
        ensures newest { IsNewest N.given (known pass.old) }
        ensures keeps { SameSeat pass.old pass.new }
    {
        let word = word_at(turn);
        let slot = slot_at(turn);
        let was = self.table.shared.exchange(pass, slot, Some(value));
        let None = was else { unreachable!() };
        if self.table.shared.swap::<Gives<N>>(pass, word, HOME) == AWAITED {
            self.table.shared.wake_all(word);
        }
    }

    /// A second pass, with a number of its own, which has seen what this one has. It takes no memory.
    pub fn split(&self, pass: &mut Pass<H>) -> Pass<H>
        requires own { IsOf self.now pass.old }
        requires ready { Ready pass.old }
        ensures left { Knowing pass.new (splitting (known pass.old)) }
        ensures right { (result.table_id ≡ pass.old.table_id) × Knowing result (split_off (known pass.old)) }
        ensures keeps { SameSeat pass.old pass.new }
    {
        self.table.shared.split_seat::<Parting>(pass)
    }

    /// Makes one pass of two, which knows what both did: both knew the base of the board. The second one holds no turn. It
    /// takes no memory.
    ///
    /// Time: three looks at a word.
    pub fn join(&self, into: &mut Pass<H>, from: Pass<H>)
        requires own { IsOf self.now into.old × IsOf self.now from }
        requires ready { Ready into.old × Ready from }
        requires idle { (known from).held ≡ [] }
        ensures both { Knowing into.new (joining (known into.old) (known from)) }
        ensures base { (known from).base ≡ (known into.old).base }
        ensures keeps { SameSeat into.old into.new }
    {
        let mut from = from;
        self.look_at_base::<Brand>(into);
        self.look_at_base::<Brand>(&mut from);
        self.make_one(into, from)
    }

    // The pass learns that its base is the one that the board was made for.
    fn look_at_base<N: MadeFor>(&self, pass: &mut Pass<H>)
        requires own { IsOf self.now pass.old }
        requires ready { Ready pass.old }
        requires made_for { N.base ≡ base_of self.now }
        ensures base { (known pass.old).base ≡ base_of self.now }
        ensures same { pass.new.me ≡ pass.old.me }
        ensures keeps { SameSeat pass.old pass.new }
    {
        self.table.shared.load::<Looks<N>>(pass, 0);
    }

    // Makes one pass of two.
    fn make_one(&self, into: &mut Pass<H>, from: Pass<H>)
        requires own { IsOf self.now into.old × IsOf self.now from }
        requires ready { Ready into.old × Ready from }
        requires idle { (known from).held ≡ [] }
        ensures both { Knowing into.new (joining (known into.old) (known from)) }
        ensures keeps { SameSeat into.old into.new }
    {
        self.table.shared.join_seat::<Parting>(into, from)
    }

    // The values, by the last pass. It takes no memory.
    pub(crate) fn close_of(self, pass: Pass<H>) -> Vec<Option<H>>
        requires own { IsOf self pass }
        requires ready { Ready pass }
        requires last { IsLast (known pass) }
        ensures ends { Ends H.shown result.items (known pass) }
    {
        let TurnBoard { room, table } = self;
        all_out(table.close_with(pass), room)
    }
}
