// The whole state of a build: the context, the open media, the counts of what is kept; and whether something lacks room after an event.
#![tactic(auto)]

ghost use Rattle.state_whole.specs.Lacking.{Lacks};

use state_context::Context;
use state_kept::Kept;
use state_media::Links;

#[derive(Clone, Copy)]
pub struct Whole {
    pub context: Context,
    pub links: Links,
    pub kept: Kept,
}

// What may have no room after an event: the work bytes, refusal 8, or the output, 9.
#[derive(Clone, Copy)]
pub enum Shortage {
    Work,
    Page,
}

// What lacks room: 8 before 9.
pub fn lack(b: Whole, room: usize) -> Option<Shortage>
    ensures { Lacks b room result }
{
    let c = b.context;
    let captures = c.buffers;
    if regions::SIZE < captures.end {
        return Some(Shortage::Work);
    }
    let held = b.links;
    if regions::SIZE < held.end {
        return Some(Shortage::Work);
    }
    let kept = b.kept;
    if regions::SIZE < kept.end {
        return Some(Shortage::Work);
    }
    if room < captures.page {
        return Some(Shortage::Page);
    }
    None
}
