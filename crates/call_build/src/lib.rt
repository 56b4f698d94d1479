// The page of a checked note: refusals 1 to 7 by the checker, 8 and 9 by the run, and every lent byte afterwards.
#![tactic(auto)]

ghost use Rattle.std.specs.Prelude.{◌≤◌, length};
ghost use Rattle.regions.specs.Sizes.{work_size};
ghost use Rattle.call_build.specs.Build.{Builds};
ghost use Rattle.run_to_html.specs.Renders.{Renders};

use call_build_answer::{LEAST_WORK, Refusal};
use machine::Options;
use run_answer::Full;

// Checks a note and writes its page into the output. Demands nothing: what is wrong is refused by its number.
pub fn build(
    text: &[u8],
    events: &[u8],
    options: Options,
    out: &mut [u8],
    work: &mut [u8],
) -> Result<usize, Refusal>
    ensures { Builds text.now events.now options out.old work.old out.new work.new result }
{
    let checked = call_build_answer::check(text, events, work.len());
    let Err(refusal) = checked else {
        let rendered = render(text, events, options, out, work);
        return call_build_answer::finish(rendered, out, work);
    };
    call_build_answer::refuse(Err(Refusal::Checked(refusal)), out, work)
}

// The run is lent as many work bytes as it needs.
fn render(
    text: &[u8],
    events: &[u8],
    options: Options,
    out: &mut [u8],
    work: &mut [u8],
) -> Result<usize, Full>
    requires { work_size ≤ length work.old }
    ensures { Renders text.now events.now options out.old out.new result }
{
    run_to_html::to_html(text, events, options, out, &mut work[0..LEAST_WORK])
}
