// The steps for 4, which a walk over the events takes: whether a list nests (RULES R3), or the event at which it does not.
#![tactic(auto)]

ghost use Rattle.std.specs.Prelude.{◌≡◌, ◌≤◌, ◌<◌};
ghost use Rattle.event.specs.Event.{name_count};
ghost use Rattle.check_nesting.specs.Pass.{turn, leave};
ghost use Rattle.check_nesting.specs.Tables.{States, Tables, state, place_of, Enters, Leaves};
ghost use Rattle.check_nesting.specs.Moved.{Opens, Closes, Advances};

mod stack;

use event::Event;
pub use stack::Nesting;

// The states in an element that is entered, and behind it.
#[derive(Clone, Copy)]
struct Entry {
    inside: u8,
    behind: u8,
}

// tools/nesting_tables writes the tables. 2 bytes to a state: its place among the entries, and 1 where nothing more has to come.
const STATES: [u8; 96] = *b"\
    \x00\x01\x00\x01\x00\x01\x00\x01\x03\x01\x03\x00\x06\x00\x0d\x00\
    \x03\x00\x04\x00\x0b\x01\x14\x01\x13\x00\x14\x00\x18\x00\x19\x01\
    \x1f\x00\x23\x01\x23\x00\x24\x00\x23\x00\x27\x00\x21\x01\x25\x00\
    \x00\x01\x00\x01\x24\x01\x22\x01\x21\x01\x20\x01\x18\x00\x00\x01\
    \x19\x00\x19\x01\x1a\x00\x00\x01\x18\x01\x16\x00\x00\x01\x15\x01\
    \x14\x00\x14\x01\x14\x00\x15\x00\x16\x01\x16\x01\x14\x00\x14\x00\
";

// 3 bytes to an entry, which lies at a state's place plus a name: the state, the states in the element and behind it.
const ENTRIES: [u8; 315] = *b"\
    \xff\x00\x00\xff\x00\x00\xff\x00\x00\xff\x00\x00\xff\x00\x00\x03\x02\x03\x03\x02\x03\
    \x03\x05\x03\x04\x02\x04\x04\x02\x04\x04\x05\x04\x05\x02\x06\x01\x03\x01\x01\x09\x01\
    \x08\x02\x02\x06\x02\x07\x01\x0c\x01\x06\x02\x02\x09\x02\x0a\x01\x02\x01\x01\x01\x01\
    \x01\x0e\x01\x01\x10\x01\x07\x02\x08\x07\x02\x02\x0a\x02\x02\x0a\x03\x0b\x01\x16\x01\
    \x01\x17\x01\x18\x02\x02\x19\x04\x1a\x19\x04\x02\x18\x02\x18\x03\x1b\x03\x0b\x02\x02\
    \x01\x1c\x01\x0c\x03\x0d\x03\x1d\x03\x0d\x02\x02\x03\x03\x03\x03\x03\x03\x03\x02\x03\
    \x03\x02\x03\x03\x02\x03\x03\x02\x03\x03\x1e\x03\x03\x1e\x03\x0e\x12\x0f\x0f\x12\x0f\
    \x1f\x23\x02\x23\x04\x24\x23\x04\x02\x1f\x04\x02\x01\x25\x01\x10\x13\x11\x26\x04\x27\
    \x26\x04\x02\x01\x28\x01\x11\x13\x11\x12\x14\x01\x13\x15\x01\x14\x02\x15\x03\x20\x03\
    \x01\x2e\x01\x15\x02\x02\x16\x02\x16\x17\x19\x18\x1a\x04\x02\x1b\x02\x1b\x1c\x02\x1c\
    \x1d\x02\x1d\x1e\x21\x1f\x20\x22\x02\x21\x03\x02\x22\x03\x02\x24\x04\x02\x25\x04\x26\
    \x27\x04\x02\x28\x2a\x29\x29\x2b\x02\x2a\x2d\x02\x2b\x2d\x2c\x2c\x2d\x2c\x2d\x03\x2d\
    \x2e\x2f\x01\x2f\x04\x02\xff\x00\x00\xff\x00\x00\xff\x00\x00\xff\x00\x00\xff\x00\x00\
    \xff\x00\x00\xff\x00\x00\xff\x00\x00\xff\x00\x00\xff\x00\x00\xff\x00\x00\xff\x00\x00\
    \xff\x00\x00\xff\x00\x00\xff\x00\x00\xff\x00\x00\xff\x00\x00\xff\x00\x00\xff\x00\x00\
";

// Both tables, to be lent: a `const` would be built anew at each use.
#[derive(Clone, Copy)]
pub struct Lookup {
    pub states: [u8; 96],
    pub entries: [u8; 315],
}

pub fn tables() -> Lookup
    ensures { Tables result.states result.entries }
{
    Lookup {
        states: STATES,
        entries: ENTRIES,
    }
}

// How many elements may be open at once.
const MOST_OPEN: usize = 64;

impl Lookup {
    // 0 to 4 are allowed at every place but inside a 3 or 4, where the state is 0.
    fn enter(&self, here: u8, name: u8) -> Option<Entry>
        requires tables { Tables self.now.states self.now.entries }
        requires here_bound { here < 48 }
        ensures { Enters (turn (state here) name) result }
    {
        if name <= Event::BLANK_LINE_ENDING {
            if here == 0 {
                return None;
            }
            if name <= Event::BLOCK_QUOTE_PREFIX {
                return Some(Entry {
                    inside: here,
                    behind: here,
                });
            }
            return Some(Entry {
                inside: 0,
                behind: here,
            });
        }
        if Event::NAMES <= name {
            return None;
        }
        let at = self.entry_place(here, name);
        if self.entries[at] != here {
            return None;
        }
        Some(Entry {
            inside: self.entries[at + 1],
            behind: self.entries[at + 2],
        })
    }

    // Where the entry of a name lies.
    fn entry_place(&self, here: u8, name: u8) -> usize
        requires states { States self.now.states }
        requires here_bound { (here < 48) × (name < name_count) }
        ensures { (result ≡ place_of self.now.states here name) × (result ≤ 312) }
    {
        let row = self.states[(here as usize) * 2];
        ((row as usize) + (name as usize)) * 3
    }

    // The state behind an exit, which must be of the newest open. 0 to 2 hold what their parent holds: nothing is missing, and the state goes on.
    fn leave(&self, here: u8, name: u8, opened: u8, behind: u8) -> Option<u8>
        requires states { States self.now.states }
        requires here_bound { (here < 48) × (behind < 48) }
        ensures { Leaves (leave (state here) (record { name = opened; behind = state behind }) name) result }
    {
        if opened != name {
            return None;
        }
        if name <= Event::BLOCK_QUOTE_PREFIX {
            return Some(here);
        }
        if self.states[(here as usize) * 2 + 1] == 0 {
            return None;
        }
        Some(behind)
    }
}

impl Nesting {
    // Before a list: nothing is open, and the whole comes.
    pub fn new() -> Nesting
        ensures { (result.depth ≡ 0) × (result.here ≡ 1) }
    {
        Nesting {
            names: [0; 64],
            behind: [0; 64],
            depth: 0,
            here: 1,
        }
    }

    // An enter or an exit: whether the list may go on with it.
    pub fn advance(&mut self, tables: &Lookup, enters: bool, name: u8) -> bool
        requires { Tables tables.now.states tables.now.entries }
        ensures { Advances enters self.old name result self.new }
    {
        if enters {
            return self.open(tables, name);
        }
        self.close(tables, name)
    }

    // At most 64 are open.
    fn open(&mut self, tables: &Lookup, name: u8) -> bool
        requires { Tables tables.now.states tables.now.entries }
        ensures { Opens self.old name result self.new }
    {
        let depth = self.depth;
        if depth == MOST_OPEN {
            return false;
        }
        let Some(entry) = tables.enter(self.here, name) else {
            return false;
        };
        self.names[depth] = name;
        self.behind[depth] = entry.behind;
        self.depth = depth + 1;
        self.here = entry.inside;
        true
    }

    // The newest open element is left, if one is open.
    fn close(&mut self, tables: &Lookup, name: u8) -> bool
        requires { Tables tables.now.states tables.now.entries }
        ensures { Closes self.old name result self.new }
    {
        if self.depth == 0 {
            return false;
        }
        let at = self.depth - 1;
        let Some(next) = tables.leave(self.here, name, self.names[at], self.behind[at]) else {
            return false;
        };
        self.depth = at;
        self.here = next;
        true
    }
}
