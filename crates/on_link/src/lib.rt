// Handlers of links and images up to their ends, by their Rust names.
#![tactic(auto)]

ghost use Rattle.std.specs.Prelude.{◌≡◌, true, false, ◌-◌};
ghost use Rattle.machine.specs.Set.{encode};
ghost use Rattle.machine.specs.Media.{destination, reference_id};
ghost use Rattle.machine.specs.Command.{◌▸◌};
ghost use Rattle.machine.specs.Words.{drop, set, store, identify};
ghost use Rattle.machine.specs.OnLink.{on_enter_link, on_enter_image, on_exit_label, on_exit_label_text, on_exit_reference_string, on_enter_resource, on_exit_resource_destination_string, on_exit_resource_title_string, on_enter_resource_destination_string};
ghost use Rattle.machine.specs.Media as M;
ghost use Rattle.state_context.specs.Rel.{Any, Begins};
ghost use Rattle.state_whole.specs.Whole.{Always, Roomy, Unlent, FromStarts, OnStarts, OnWork};
ghost use Rattle.on_link.specs.Links.{Handled, StoresBy};

use event::Event;
use state_context::Context;
use state_media::{Links, Span};
use state_whole::Whole;

// ---- links and images

pub fn on_enter_link(b: Whole) -> Whole
    ensures { Unlent Always Any on_enter_link b result }
{
    let mut r = b;
    r.links = state_media::open_media(b.links, false);
    r
}

// In an image's text there are no tags.
pub fn on_enter_image(b: Whole) -> Whole
    ensures { Unlent Always Any on_enter_image b result }
{
    let mut r = b;
    r.links = state_media::open_media(b.links, true);
    r.context = state_context::set_alt(b.context, true);
    r
}

// How many bytes the newest capture has.
pub fn captured_length(c: Context) -> usize
    ensures { result ≡ c.buffers.end - c.buffers.start }
{
    c.buffers.end.saturating_sub(c.buffers.start)
}

// What was captured becomes a part of the newest medium, as `store` has it: by the work bytes, the place of the first and their count.
fn store_by<F: FnOnce(Links, &mut [u8], usize, usize) -> Links>(
    b: Whole,
    work: &mut [u8],
    starts: &[usize],
    store: F,
) -> Whole
    requires { F.IsAlwaysCallable store }
    ensures { StoresBy (F.post store) b work.old starts.now result work.new }
{
    let mut r = b;
    let mut c = b.context;
    let from = c.buffers.start;
    let n = captured_length(c);
    r.links = store(b.links, work, from, n);
    c.buffers = state_buffers::drop(b.context.buffers, starts);
    r.context = c;
    r
}

pub fn on_exit_label(b: Whole, work: &mut [u8], starts: &[usize]) -> Whole
    ensures { OnWork Roomy Any on_exit_label b work.old starts.now result work.new }
{
    store_by(b, work, starts, state_media::store_label)
}

pub fn on_exit_label_text(b: Whole, e: Event) -> Whole
    ensures { Unlent Always (Handled e) on_exit_label_text b result }
{
    let mut r = b;
    let from = e.from;
    let to = e.to;
    let p = Span { from, to };
    r.links = state_media::identify_label(b.links, p);
    r
}

// The label is taken from the text, not as captured.
pub fn identify_reference(b: Whole, e: Event, starts: &[usize]) -> Whole
    ensures { FromStarts Roomy (Handled e) (drop ▸ identify reference_id) b starts.now result }
{
    let mut r = b;
    let from = e.from;
    let to = e.to;
    let p = Span { from, to };
    r.context = state_context::drop(b.context, starts);
    r.links = state_media::identify_reference(b.links, p);
    r
}

pub fn on_exit_reference_string(b: Whole, e: Event, starts: &[usize]) -> Whole
    ensures { FromStarts Roomy (Handled e) on_exit_reference_string b starts.now result }
{
    identify_reference(b, e, starts)
}

// ---- resources

// Line endings in the resource are captured, and dropped.
pub fn on_enter_resource(b: Whole, starts: &mut [usize]) -> Whole
    ensures { OnStarts Always Any on_enter_resource b starts.old result starts.new }
{
    let mut r = b;
    r.context = state_context::open(b.context, starts);
    r.links = state_media::empty_destination(b.links);
    r
}

// A resource's destination or a definition's: a URL is encoded later.
pub fn on_enter_destination_string(c: Context, starts: &mut [usize]) -> Context
    ensures { Begins on_enter_resource_destination_string c starts.old result starts.new }
{
    let r = state_context::open(c, starts);
    state_context::set_encode(r, false)
}

pub fn store_destination(b: Whole, work: &mut [u8], starts: &[usize]) -> Whole
    ensures { OnWork Roomy Any (store destination ▸ set encode true) b work.old starts.now result work.new }
{
    let mut r = store_by(b, work, starts, state_media::store_destination);
    r.context = state_context::set_encode(r.context, true);
    r
}

pub fn store_title(b: Whole, work: &mut [u8], starts: &[usize]) -> Whole
    ensures { OnWork Roomy Any (store M.title) b work.old starts.now result work.new }
{
    store_by(b, work, starts, state_media::store_title)
}

pub fn on_exit_resource_destination_string(b: Whole, work: &mut [u8], starts: &[usize]) -> Whole
    ensures { OnWork Roomy Any on_exit_resource_destination_string b work.old starts.now result work.new }
{
    store_destination(b, work, starts)
}

pub fn on_exit_resource_title_string(b: Whole, work: &mut [u8], starts: &[usize]) -> Whole
    ensures { OnWork Roomy Any on_exit_resource_title_string b work.old starts.now result work.new }
{
    store_title(b, work, starts)
}

// ---- definitions
