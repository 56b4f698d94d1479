// Event records of 20 bytes, little endian: decoded, one field read, and the extra field unpacked.
#![tactic(auto)]

ghost use Rattle.std.specs.Prelude.{◌+◌, ◌*◌, ◌≤◌, ◌<◌, ◌≡◌, length};
ghost use Rattle.event.specs.Event.{record_size, count_of, event_of, event_at, is_enter, is_loose, columns_of, alignment_of};

// An event's place in the list. It is never added to a byte's place.
#[derive(Clone, Copy)]
pub struct EventIndex(pub usize);

// A byte's place in the text.
#[derive(Clone, Copy)]
pub struct BytePlace(pub usize);

// One record. An exit's slice of the text is from..to.
#[derive(Clone, Copy)]
pub struct Event {
    pub kind: u8,
    pub name: u8,
    pub before: u8,
    pub after: u8,
    pub from: BytePlace,
    pub to: BytePlace,
    pub extra: u64,
}

impl Event {
    // A record's size, and the places of its fields.
    pub const SIZE: usize = 20;

    pub const KIND_AT: usize = 0;

    pub const NAME_AT: usize = 1;

    pub const BEFORE_AT: usize = 2;

    pub const AFTER_AT: usize = 3;

    pub const FROM_AT: usize = 4;

    pub const TO_AT: usize = 8;

    pub const EXTRA_AT: usize = 12;

    // The kinds. They stay numbers, and `kind` and `name` bytes: `event_of` reads any byte, and what no rule knows is refused by its
    // number (RULES R2.1, R4.1).
    pub const ENTER: u8 = 0;

    pub const EXIT: u8 = 1;

    // The names, as the Rust has them. OTHER is any that has no handler.
    pub const OTHER: u8 = 0;

    pub const SPACE_OR_TAB: u8 = 1;

    pub const BLOCK_QUOTE_PREFIX: u8 = 2;

    pub const LINE_ENDING: u8 = 3;

    pub const BLANK_LINE_ENDING: u8 = 4;

    pub const DATA: u8 = 5;

    pub const CHARACTER_ESCAPE_VALUE: u8 = 6;

    pub const CHARACTER_REFERENCE: u8 = 7;

    pub const CHARACTER_REFERENCE_MARKER: u8 = 8;

    pub const CHARACTER_REFERENCE_MARKER_NUMERIC: u8 = 9;

    pub const CHARACTER_REFERENCE_MARKER_HEXADECIMAL: u8 = 10;

    pub const CHARACTER_REFERENCE_VALUE: u8 = 11;

    pub const PARAGRAPH: u8 = 12;

    pub const HEADING_ATX: u8 = 13;

    pub const HEADING_ATX_SEQUENCE: u8 = 14;

    pub const HEADING_ATX_TEXT: u8 = 15;

    pub const HEADING_SETEXT: u8 = 16;

    pub const HEADING_SETEXT_TEXT: u8 = 17;

    pub const HEADING_SETEXT_UNDERLINE_SEQUENCE: u8 = 18;

    pub const THEMATIC_BREAK: u8 = 19;

    pub const BLOCK_QUOTE: u8 = 20;

    pub const LIST_ORDERED: u8 = 21;

    pub const LIST_UNORDERED: u8 = 22;

    pub const LIST_ITEM: u8 = 23;

    pub const LIST_ITEM_PREFIX: u8 = 24;

    pub const LIST_ITEM_MARKER: u8 = 25;

    pub const LIST_ITEM_VALUE: u8 = 26;

    pub const CODE_INDENTED: u8 = 27;

    pub const CODE_FENCED: u8 = 28;

    pub const CODE_FENCED_FENCE: u8 = 29;

    pub const CODE_FENCED_FENCE_INFO: u8 = 30;

    pub const CODE_FENCED_FENCE_META: u8 = 31;

    pub const CODE_FLOW_CHUNK: u8 = 32;

    pub const CODE_TEXT: u8 = 33;

    pub const CODE_TEXT_DATA: u8 = 34;

    pub const HTML_FLOW: u8 = 35;

    pub const HTML_FLOW_DATA: u8 = 36;

    pub const HTML_TEXT: u8 = 37;

    pub const HTML_TEXT_DATA: u8 = 38;

    pub const EMPHASIS: u8 = 39;

    pub const STRONG: u8 = 40;

    pub const HARD_BREAK_ESCAPE: u8 = 41;

    pub const HARD_BREAK_TRAILING: u8 = 42;

    pub const AUTOLINK_EMAIL: u8 = 43;

    pub const AUTOLINK_PROTOCOL: u8 = 44;

    pub const LINK: u8 = 45;

    pub const IMAGE: u8 = 46;

    pub const LABEL: u8 = 47;

    pub const LABEL_TEXT: u8 = 48;

    pub const RESOURCE: u8 = 49;

    pub const RESOURCE_DESTINATION_STRING: u8 = 50;

    pub const RESOURCE_TITLE_STRING: u8 = 51;

    pub const REFERENCE_STRING: u8 = 52;

    pub const DEFINITION: u8 = 53;

    pub const DEFINITION_LABEL_STRING: u8 = 54;

    pub const DEFINITION_DESTINATION_STRING: u8 = 55;

    pub const DEFINITION_TITLE_STRING: u8 = 56;

    pub const GFM_TABLE: u8 = 57;

    pub const GFM_TABLE_HEAD: u8 = 58;

    pub const GFM_TABLE_BODY: u8 = 59;

    pub const GFM_TABLE_ROW: u8 = 60;

    pub const GFM_TABLE_CELL: u8 = 61;

    pub const GFM_FOOTNOTE_CALL: u8 = 62;

    pub const GFM_FOOTNOTE_DEFINITION: u8 = 63;

    pub const GFM_FOOTNOTE_DEFINITION_PREFIX: u8 = 64;

    pub const GFM_FOOTNOTE_DEFINITION_LABEL_STRING: u8 = 65;

    // How many names there are.
    pub const NAMES: u8 = 66;

    // The event that a record's bytes hold.
    pub fn decode(bytes: &[u8]) -> Self
        requires { record_size ≤ length bytes.now }
        ensures { result ≡ event_of bytes.now }
    {
        let from = little::u32_at(bytes, Event::FROM_AT);
        let to = little::u32_at(bytes, Event::TO_AT);
        let extra = little::u64_at(bytes, Event::EXTRA_AT);
        Self {
            kind: bytes[Event::KIND_AT],
            name: bytes[Event::NAME_AT],
            before: bytes[Event::BEFORE_AT],
            after: bytes[Event::AFTER_AT],
            from: BytePlace(from as usize),
            to: BytePlace(to as usize),
            extra,
        }
    }

    // The event at an index.
    pub fn read(events: &[u8], i: EventIndex) -> Self
        requires { i.0 < count_of events.now }
        ensures { result ≡ event_at events.now i.0 }
    {
        let at = Event::SIZE * i.0;
        Event::decode(&events[at..at + Event::SIZE])
    }

    pub fn is_enter(self) -> bool
        ensures { result ≡ is_enter self }
    {
        self.kind == Event::ENTER
    }

    // Of a list: whether it is loose.
    pub fn is_loose(self) -> bool
        ensures { result ≡ is_loose self }
    {
        self.extra == 1
    }

    // Of a table: how many columns it has.
    pub fn columns(self) -> usize
        ensures { result ≡ columns_of self }
    {
        (self.extra & 0xFF) as usize
    }

    // Of a table: a column's alignment, 0 none, 1 left, 2 right, 3 center, a number as in `alignment_of` (RULES R2.4).
    pub fn alignment(self, column: usize) -> u64
        ensures { result ≡ alignment_of self column }
    {
        // the extra field has no more than 28 pairs of bits from bit 8 on
        if 27 < column {
            return 0;
        }
        self.extra >> (8 + 2 * column) & 3
    }
}

// How many whole records there are.
pub fn count(events: &[u8]) -> usize
    ensures { result ≡ count_of events.now }
{
    events.len() / Event::SIZE
}

// The kind of the event at an index.
pub fn kind_at(events: &[u8], i: EventIndex) -> u8
    requires { i.0 < count_of events.now }
    ensures { result ≡ (event_at events.now i.0).kind }
{
    events[Event::SIZE * i.0 + Event::KIND_AT]
}

// The name of the event at an index.
pub fn name_at(events: &[u8], i: EventIndex) -> u8
    requires { i.0 < count_of events.now }
    ensures { result ≡ (event_at events.now i.0).name }
{
    events[Event::SIZE * i.0 + Event::NAME_AT]
}
