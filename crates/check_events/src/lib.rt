// The checker's walk for refusals 3 to 6: the fields of all events, how they nest, their slices and the counts; and whether 7 has anything to look at.
#![tactic(auto)]

ghost use Rattle.std.specs.Prelude.{◌≡◌, true, false};
ghost use Rattle.check_nesting.specs.Tag.{tags_of};
ghost use Rattle.check_nesting.specs.Pass.{nest_of};
ghost use Rattle.check_nesting.specs.Tables.{Tables};
ghost use Rattle.check_slices.specs.Slices.{nothing_seen, with_sequence, seen_behind, event_holds};
ghost use Rattle.check_slices.specs.Counts.{none_counted, Few, counted_behind, count_holds};
ghost use Rattle.check_events.specs.Walk.{Step, IdleEnter, IdleExit, FieldsTo};
ghost use Rattle.check_events.specs.Looked.{Looks};

use character_reference::Marker;
use check_nesting::{Lookup, Nesting};
use check_slices::{Counts, Seen};
use event::{Event, EventIndex};

// What 5 and 6 say, and whether there may be a link, an image or a call.
#[derive(Clone, Copy)]
pub struct Passed {
    pub slices: Option<usize>,
    pub counts: Option<usize>,
    pub uses: bool,
}

// The first event whose fields break a rule; else the first at which the list does not nest.
#[derive(Clone, Copy)]
pub enum Fault {
    Field(usize),
    Nested(usize),
}

// The walk for 5: the place of the first wrong slice so far, and what the rules look back for.
#[derive(Clone, Copy)]
pub struct Slicing {
    pub wrong: Option<usize>,
    pub seen: Seen,
}

// The same for 6; and whether a link, an image, a call or a definition began.
#[derive(Clone, Copy)]
pub struct Counting {
    pub wrong: Option<usize>,
    pub counts: Counts,
    pub uses: bool,
}

// A bit for each name below 64, the lowest for 0, whose enter 5, 6 or 7 looks at: headings, links, images, calls and definitions of both kinds.
const WATCHED_ENTERS: u64 = 0xC020_6000_0000_2000;

// The same for exits: those that have a rule of slices or that one looks back for.
const WATCHED_EXITS: u64 = 0x0404_4F18;

// Whether an enter of this name is known to have no rule but that of its fields: most have none.
fn is_idle_enter(name: u8) -> bool
    ensures { IdleEnter name result }
{
    WATCHED_ENTERS >> (name & 63) & 1 == 0
}

fn is_idle_exit(name: u8) -> bool
    ensures { IdleExit name result }
{
    WATCHED_EXITS >> (name & 63) & 1 == 0
}

impl Slicing {
    fn new() -> Slicing
        ensures { (result.wrong ≡ None) × (result.seen ≡ nothing_seen) }
    {
        Slicing {
            wrong: None,
            seen: Seen {
                sequence: false,
                marker: Marker::Named,
            },
        }
    }

    // Behind the enter of a heading: in it no 14 was left so far.
    fn enter_heading(&mut self)
        ensures { (self.new.wrong ≡ self.old.wrong) × (self.new.seen ≡ with_sequence false self.old.seen) }
    {
        self.seen = Seen {
            sequence: false,
            ..self.seen
        };
    }

    // Behind an exit.
    fn exit(&mut self, text: &[u8], e: Event, i: usize)
        ensures { Step (event_holds text.now) seen_behind i e self.old.wrong self.old.seen self.new.wrong self.new.seen }
    {
        if self.wrong.is_some() {
            return;
        }
        if check_slices::event_holds(text, self.seen, e) {
            self.seen = check_slices::seen_behind(self.seen, e);
            return;
        }
        self.wrong = Some(i);
    }
}

impl Counting {
    fn new() -> Counting
        ensures { (result.wrong ≡ None) × (result.counts ≡ none_counted) × (result.uses ≡ false) }
    {
        Counting {
            wrong: None,
            counts: Counts {
                definitions: 0,
                footnotes: 0,
            },
            uses: false,
        }
    }

    // Behind an enter that 6 or 7 looks at.
    fn enter(&mut self, e: Event, i: usize)
        requires { Few self.old.counts }
        ensures { (Step count_holds counted_behind i e self.old.wrong self.old.counts self.new.wrong self.new.counts) × (Few self.new.counts) × (self.new.uses ≡ true) }
    {
        self.uses = true;
        if self.wrong.is_some() {
            return;
        }
        if check_slices::count_holds(self.counts, e) {
            self.counts = check_slices::counted_behind(self.counts, e);
            return;
        }
        self.wrong = Some(i);
    }
}

// The list does not nest at this event: that is the answer, unless fields further on break their rules.
fn unnested(text: &[u8], events: &[u8], at: usize) -> Fault
    requires { (FieldsTo text.now events.now at) × (Some at ≡ nest_of (tags_of events.now)) }
    ensures { Looks text.now events.now (Err result) }
{
    for later in at..event::count(events) {
        if !check_fields::fields_hold(text, Event::read(events, EventIndex(later))) {
            return Fault::Field(later);
        }
    }
    Fault::Nested(at)
}

// The walk: enters and exits apart, as most have no rule but those of fields and nesting.
fn walk(text: &[u8], events: &[u8], tables: &Lookup) -> Result<Passed, Fault>
    requires { Tables tables.now.states tables.now.entries }
    ensures { Looks text.now events.now result }
{
    let count = event::count(events);
    let mut s = Slicing::new();
    let mut n = Counting::new();
    let mut nesting = Nesting::new();
    for i in 0..count {
        let e = Event::read(events, EventIndex(i));
        if !check_fields::fields_hold(text, e) {
            return Err(Fault::Field(i));
        }
        let enters = e.is_enter();
        if !nesting.advance(tables, enters, e.name) {
            return Err(unnested(text, events, i));
        }
        if enters {
            if is_idle_enter(e.name) {
                continue;
            }
            if e.name == Event::HEADING_ATX {
                s.enter_heading();
                continue;
            }
            n.enter(e, i);
            continue;
        }
        if is_idle_exit(e.name) {
            continue;
        }
        s.exit(text, e, i);
    }
    // nothing may be open at the end
    if nesting.depth != 0 {
        return Err(Fault::Nested(count));
    }
    Ok(Passed {
        slices: s.wrong,
        counts: n.wrong,
        uses: n.uses,
    })
}

// What 3 to 6 say of a list, and whether 7 has anything to look at.
pub fn look(text: &[u8], events: &[u8]) -> Result<Passed, Fault>
    ensures { Looks text.now events.now result }
{
    let tables = check_nesting::tables();
    walk(text, events, &tables)
}
