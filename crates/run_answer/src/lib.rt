// The limit that a run comes to.
#![tactic(auto)]

use event::EventIndex;

// The event after which the work bytes, refusal 8, or the output, 9, have no room; in the footnote section, the count of events.
#[derive(Clone, Copy)]
pub enum Full {
    Work(EventIndex),
    Page(EventIndex),
}
